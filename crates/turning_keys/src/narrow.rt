//! The range of one part, halved until one number is left.

ghost use Rattle.std.specs.Prelude.{◌<◌, IfOk, length};
ghost use Rattle.league_core.specs.game.Seasons.{IsLeague};
ghost use Rattle.turning_keys.specs.inside.TurningSearches.{range_spanned, IsHalving};
ghost use Rattle.turning_keys.specs.inside.TurningSearches.{IsPartNarrowed};

use crate::halve::{Halved, Reached, SpentOn, halve};
use crate::part_range::PartRange;
use crate::sought::Sought;
use league_core::{OutOfMemory, Season, Sheet};
use std::alloc::Global;

/// What is left of a part.
#[derive(Drop)]
pub(crate) enum Narrowed {
    /// The one number.
    One(i32),
    /// The budget was spent.
    NoMore(SpentOn),
}

/// Halves a range until one number is left, unless the budget is spent on the way.
pub(crate) fn narrow(
    alloc: Global,
    sheet: &Sheet,
    season: &Season,
    sought: Sought,
    reached: &mut Reached,
    whole: PartRange,
) -> Result<Narrowed, OutOfMemory>
    requires league { IsLeague sheet.now season.now }
    requires in_range { sought.club < length sheet.now.clubs }
    requires halving { IsHalving sheet.now season.now sought.claim sought.club reached.old
        (range_spanned whole) }
    ensures { IfOk result (IsPartNarrowed sheet.now season.now sought.claim sought.club
        reached.old reached.new) }
{
    let _scores = season.scores();
    let mut range = whole;
    while range.has_several() {
        match halve(alloc, sheet, season, sought, reached, range)? {
            Halved::Left(half) => range = half,
            Halved::OnTheWay(spent) => return Ok(Narrowed::NoMore(spent)),
        }
    }
    Ok(Narrowed::One(range.first()))
}
