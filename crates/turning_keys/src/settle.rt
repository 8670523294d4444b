//! One question about a key.

ghost use Rattle.std.specs.Prelude.{◌<◌, IfOk, IsTrue, length};
ghost use Rattle.league_core.specs.game.Seasons.{IsLeague};
ghost use Rattle.club_keys.specs.inside.KeyEnds.{key_parts};
ghost use Rattle.turning_keys.specs.inside.TurningSearches.{IsCandidateAt, IsReachedWithin};
ghost use Rattle.turning_keys.specs.inside.TurningSearches.{IsKeySettled};

use crate::key_part::is_beyond;
use crate::sought::Sought;
use club_keys::{ClubKey, key_of};
use cup_sheet::GroupReason;
use depth_search::{CaseNode, SearchEnd};
use group_search::solve_group;
use league_core::{OutOfMemory, Season, Sheet};
use std::alloc::Global;
use tree_arena::Example;

/// What a question about a key says of the turning key.
#[derive(Drop)]
pub(crate) enum Settled {
    /// It is no farther out.
    Near,
    /// It is farther out.
    Far,
    /// The budget was spent: the nodes of the tree.
    Spent(Vec<CaseNode<GroupReason>>),
}

/// Asks whether the club can be the candidate with a key no farther out than this. If the known
/// example shows it already, nothing is searched; an example that is found takes its place.
pub(crate) fn settle(
    alloc: Global,
    sheet: &Sheet,
    season: &Season,
    sought: Sought,
    key: &ClubKey,
    example: &mut Example,
) -> Result<Settled, OutOfMemory>
    requires league { IsLeague sheet.now season.now }
    requires in_range { sought.club < length sheet.now.clubs }
    requires candidate { IsCandidateAt sheet.now season.now sought.club example.old }
    ensures { IfOk result (IsKeySettled sheet.now season.now sought.claim sought.club
        (key_parts key.now) example.old example.new) }
{
    if is_shown(sheet, season, sought, key, example) {
        return Ok(Settled::Near);
    }
    search(alloc, sheet, season, sought, key, example)
}

// The example's key is no farther out.
fn is_shown(
    sheet: &Sheet,
    season: &Season,
    sought: Sought,
    key: &ClubKey,
    example: &Example,
) -> bool
    requires league { IsLeague sheet.now season.now }
    requires in_range { sought.club < length sheet.now.clubs }
    requires candidate { IsCandidateAt sheet.now season.now sought.club example.now }
    ensures { IsTrue result → IsReachedWithin sheet.now season.now sought.claim sought.club
        (key_parts key.now) example.now }
{
    let reached = key_of(sheet, example.finish.as_season(), sought.club);
    is_beyond(sought.claim, &reached, key)
}

// Searches for an example of the question.
fn search(
    alloc: Global,
    sheet: &Sheet,
    season: &Season,
    sought: Sought,
    key: &ClubKey,
    example: &mut Example,
) -> Result<Settled, OutOfMemory>
    requires league { IsLeague sheet.now season.now }
    requires in_range { sought.club < length sheet.now.clubs }
    ensures { IfOk result (IsKeySettled sheet.now season.now sought.claim sought.club
        (key_parts key.now) example.old example.new) }
{
    let _scores = season.scores();
    match solve_group(alloc, sheet, season, &sought.halving(key))? {
        SearchEnd::Won(found) => {
            *example = found;
            Ok(Settled::Near)
        }
        SearchEnd::Refuted(_) => Ok(Settled::Far),
        SearchEnd::Spent(nodes) => Ok(Settled::Spent(nodes)),
    }
}
