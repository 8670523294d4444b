//! The parts of a turning key, one after the other.

ghost use Rattle.std.specs.Prelude.{◌≡◌, ◌<◌, ℕ, [], IfOk, Some, length, slice_get};
ghost use Rattle.league_core.specs.declared.sheet.Sheet.{Sheet};
ghost use Rattle.league_core.specs.game.Results.{Results};
ghost use Rattle.league_core.specs.game.Seasons.{IsLeague};
ghost use Rattle.league_core.specs.search.Keys.{key_ranges};
ghost use Rattle.club_keys.specs.inside.KeyEnds.{AreKeyEnds};
ghost use Rattle.turning_keys.specs.inside.TurningSearches.{range_spanned, IsReachedTo};
ghost use Rattle.turning_keys.specs.inside.TurningSearches.{IsPartFound};
ghost use Rattle.turning_keys.specs.inside.TurningSearches.{IsKeyFound};

use crate::halve::{Reached, SpentOn};
use crate::key_part::{KEY_PARTS, part_of, with_part};
use crate::narrow::{Narrowed, narrow};
use crate::part_range::{PartRange, span};
use crate::sought::Sought;
use club_keys::KeyEnds;
use key_bounds::key_ends;
use league_core::{OutOfMemory, Season, Sheet};
use score_box::{Played, ZoneBox};
use std::alloc::Global;

/// Finds each part of the key, unless the budget is spent on a question on the way.
pub(crate) fn find_key(
    alloc: Global,
    sheet: &Sheet,
    season: &Season,
    sought: Sought,
    reached: &mut Reached,
) -> Result<Option<SpentOn>, OutOfMemory>
    requires league { IsLeague sheet.now season.now }
    requires in_range { sought.club < length sheet.now.clubs }
    requires none { reached.old.known ≡ 0 }
    requires reached { IsReachedTo sheet.now season.now sought.claim sought.club reached.old }
    ensures { IfOk result (IsKeyFound sheet.now season.now sought.claim sought.club
        reached.new) }
{
    let ends = whole_ends(alloc, sheet, season, sought.club)?;
    for place in 0..KEY_PARTS {
        let range = whole_range(&ends, place);
        if let Some(spent) = find_part(alloc, sheet, season, sought, reached, range)? {
            return Ok(Some(spent));
        }
    }
    Ok(None)
}

// Both ends of the key in the zone without a literal.
fn whole_ends(
    alloc: Global,
    sheet: &Sheet,
    season: &Season,
    club: u8,
) -> Result<KeyEnds, OutOfMemory>
    requires league { IsLeague sheet.now season.now }
    requires in_range { club < length sheet.now.clubs }
    ensures { IfOk result (AreKeyEnds sheet.now season.now [] club) }
{
    let played = Played::of(alloc, sheet, season)?;
    let zone_box = ZoneBox::over(alloc, &played, &[])?;
    Ok(key_ends(&zone_box, club))
}

// What they leave of a part, by its place from 0.
fn whole_range(ends: &KeyEnds, place: u8) -> PartRange
    requires { place < 7 }
    ensures { (sheet : Sheet) (season : Results) (club : ℕ)
        → AreKeyEnds sheet season [] club ends.now
        → slice_get (key_ranges sheet season [] club) place ≡ Some (range_spanned result) }
{
    span(part_of(&ends.low, place), part_of(&ends.high, place))
}

// Halves the whole range of the next part until one number is left.
fn find_part(
    alloc: Global,
    sheet: &Sheet,
    season: &Season,
    sought: Sought,
    reached: &mut Reached,
    whole: PartRange,
) -> Result<Option<SpentOn>, OutOfMemory>
    requires league { IsLeague sheet.now season.now }
    requires in_range { sought.club < length sheet.now.clubs }
    requires room { reached.old.known < 7 }
    requires reached { IsReachedTo sheet.now season.now sought.claim sought.club reached.old }
    requires whole { slice_get (key_ranges sheet.now season.now [] sought.club) reached.old.known
        ≡ Some (range_spanned whole) }
    ensures { IfOk result (IsPartFound sheet.now season.now sought.claim sought.club
        reached.old reached.new) }
{
    let _scores = season.scores();
    match narrow(alloc, sheet, season, sought, reached, whole)? {
        Narrowed::One(part) => {
            reached.key = with_part(&reached.key, reached.known, part);
            reached.known += 1;
            Ok(None)
        }
        Narrowed::NoMore(spent) => Ok(Some(spent)),
    }
}
