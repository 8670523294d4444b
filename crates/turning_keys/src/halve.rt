//! One step of halving.

ghost use Rattle.std.specs.Prelude.{◌<◌, ◌<ℤ◌, IfOk, length};
ghost use Rattle.league_core.specs.game.Seasons.{IsLeague};
ghost use Rattle.turning_keys.specs.inside.TurningSearches.{range_spanned, IsHalving, IsHalved};

use crate::key_part::with_part;
use crate::part_range::PartRange;
use crate::settle::{Settled, settle};
use crate::sought::Sought;
use club_keys::ClubKey;
use cup_groups::KindQuestion;
use cup_sheet::GroupReason;
use depth_search::CaseNode;
use league_core::{OutOfMemory, Season, Sheet};
use std::alloc::Global;
use tree_arena::Example;

/// What is known of the turning key of a club that can be its group's candidate.
#[derive(Drop)]
pub(crate) struct Reached {
    /// The parts that are known, and in each later place a number beyond all.
    pub key: ClubKey,
    /// So many parts are known.
    pub known: u8,
    /// How the club is the candidate with a key that is no farther out.
    pub example: Example,
}

/// A question on which the budget was spent, and the nodes of the tree.
#[derive(Drop)]
pub(crate) struct SpentOn {
    pub question: KindQuestion,
    pub nodes: Vec<CaseNode<GroupReason>>,
}

/// What a step comes to.
#[derive(Drop)]
pub(crate) enum Halved {
    /// The half in which the part lies.
    Left(PartRange),
    /// The budget was spent on the question about the middle.
    OnTheWay(SpentOn),
}

/// Halves the range of the next part toward that of the turning key.
pub(crate) fn halve(
    alloc: Global,
    sheet: &Sheet,
    season: &Season,
    sought: Sought,
    reached: &mut Reached,
    range: PartRange,
) -> Result<Halved, OutOfMemory>
    requires league { IsLeague sheet.now season.now }
    requires in_range { sought.club < length sheet.now.clubs }
    requires several { range.least <ℤ range.greatest }
    requires halving { IsHalving sheet.now season.now sought.claim sought.club reached.old
        (range_spanned range) }
    ensures { IfOk result (IsHalved sheet.now season.now sought.claim sought.club
        (range_spanned range) reached.old reached.new) }
{
    let _scores = season.scores();
    let middle = range.middle(sought.claim);
    let key = with_part(&reached.key, reached.known, middle);
    match settle(alloc, sheet, season, sought, &key, &mut reached.example)? {
        Settled::Near => Ok(Halved::Left(range.near_half(sought.claim, middle))),
        Settled::Far => Ok(Halved::Left(range.far_half(sought.claim, middle))),
        Settled::Spent(nodes) => {
            let question = sought.halving(&key);
            Ok(Halved::OnTheWay(SpentOn { question, nodes }))
        }
    }
}
