//! The candidates of other groups that are before a club.

ghost use Rattle.std.specs.Prelude.{◌≡◌, ◌≤◌, ◌<◌, ◌+◌, ◌==◌, ◌&&◌, ℕ, IfOk, IsTrue};
ghost use Rattle.std.specs.Prelude.{count_by, length};
ghost use Rattle.league_core.specs.game.Ranking.{are_lots};
ghost use Rattle.league_core.specs.game.Seasons.{IsLeague};
ghost use Rattle.cup_sheet.specs.CupLimits.{direct_places};
ghost use Rattle.cup_sheet.specs.Cups.{AreSeasonsOf, IsCup, clubs_together};
ghost use Rattle.cup_sheet.specs.JointFinishes.{GroupState, states_of};
ghost use Rattle.cup_sheet.specs.Qualifying.{has_better, is_before_across, other_groups};
ghost use Rattle.cup_sheet.specs.Qualifying.{place_in_group};
ghost use Rattle.cup_finish.specs.inside.Contenders.{IsContender, group_state};

use crate::contender::{Contender, contender_of};
use crate::group_lots::lots_within;
use cup_sheet::Cup;
use final_rank::place;
use league_core::{Lots, OutOfMemory, Season, Sheet};
use std::alloc::Global;

/// The place in a group after the direct ones.
pub(crate) const CANDIDATE_PLACE: u8 = 2;

/// How many groups but the contender's own have a candidate that is before it.
pub(crate) fn count_better(
    alloc: Global,
    cup: &Cup,
    finishes: &[Season],
    lots: &Lots,
    contender: &Contender,
) -> Result<u8, OutOfMemory>
    requires cup { IsCup cup.now }
    requires finishes { AreSeasonsOf cup.now.groups finishes.now }
    requires drawn { IsTrue (are_lots (clubs_together cup.now.groups) lots.now) }
    ensures { (mine : GroupState) (own : ℕ) → IsContender mine own contender.now
        → IfOk result (λ better. better ≡ count_by (has_better direct_places lots.now mine own)
        (other_groups mine (states_of cup.now finishes.now))) }
{
    let groups = cup.groups.as_slice();
    let mut first = 0;
    let mut better = 0;
    for group in 0..groups.len() {
        let sheet = &groups[group];
        let season = &finishes[group];
        if first != contender.first {
            let is_better = has_better(alloc, sheet, season, lots, first, contender)?;
            better += u8::from(is_better);
        }
        first += sheet.clubs.len() as u8;
    }
    Ok(better)
}

// Whether the group has a candidate that is before the contender.
fn has_better(
    alloc: Global,
    sheet: &Sheet,
    season: &Season,
    lots: &Lots,
    first: u8,
    contender: &Contender,
) -> Result<bool, OutOfMemory>
    requires league { IsLeague sheet.now season.now }
    requires room { first + length sheet.now.clubs ≤ length lots.now }
    requires few { first + length sheet.now.clubs < 256 }
    ensures { (mine : GroupState) (own : ℕ) → IsContender mine own contender.now
        → IfOk result (λ it. it ≡ has_better direct_places lots.now mine own
        (group_state first sheet.now season.now)) }
{
    for club in 0..sheet.clubs.len() as u8 {
        let place = place_in_group(alloc, sheet, season, lots, first, club)?;
        let rival = contender_of(sheet, season, first, club);
        if is_better(&rival, place, contender, lots) {
            return Ok(true);
        }
    }
    Ok(false)
}

// Whether a club at this place of its group is its candidate, and before the contender.
fn is_better(rival: &Contender, place: u8, contender: &Contender, lots: &Lots) -> bool
    ensures { (group : GroupState) (other : ℕ) (mine : GroupState) (own : ℕ)
        → IsContender group other rival.now → IsContender mine own contender.now
        → result ≡ (place == direct_places + 1
        && is_before_across lots.now group other mine own) }
{
    place == CANDIDATE_PLACE && rival.is_before(contender, lots)
}

/// The place of a club in its group, whose first club is `first` in the cup.
pub(crate) fn place_in_group(
    alloc: Global,
    sheet: &Sheet,
    season: &Season,
    lots: &Lots,
    first: u8,
    own: u8,
) -> Result<u8, OutOfMemory>
    requires league { IsLeague sheet.now season.now }
    requires room { first + length sheet.now.clubs ≤ length lots.now }
    requires in_range { own < length sheet.now.clubs }
    ensures { IfOk result (λ place. place
        ≡ place_in_group lots.now (group_state first sheet.now season.now) own) }
{
    let own_lots = lots_within(alloc, lots, first, sheet.clubs.len() as u8)?;
    place(alloc, sheet, season, &own_lots, own)
}
