//! Whether a club qualifies.

ghost use Rattle.std.specs.Prelude.{◌≡◌, ◌<◌, ℕ, ◌&&◌, ◌||◌, nat_le, nat_lt, ◌==◌, IfOk, IsTrue};
ghost use Rattle.std.specs.Prelude.{count_by, ◌+◌};
ghost use Rattle.league_core.specs.game.Ranking.{are_lots};
ghost use Rattle.cup_sheet.specs.CupLimits.{direct_places};
ghost use Rattle.cup_sheet.specs.Cups.{AreSeasonsOf, IsCup, clubs_together};
ghost use Rattle.cup_sheet.specs.JointFinishes.{GroupState, states_of};
ghost use Rattle.cup_sheet.specs.Qualifying.{has_better, other_groups, qualifies_at};
ghost use Rattle.cup_finish.specs.inside.Contenders.{IsContender};

use crate::better::{CANDIDATE_PLACE, count_better, place_in_group};
use crate::contender::{Contender, contender_of};
use crate::group_lots::is_within;
use cup_sheet::Cup;
use league_core::{Lots, OutOfMemory, Season};
use std::alloc::Global;

/// Whether the club, by its number in the cup from 0, qualifies if the groups end so, each by the
/// finish at its place, and the lots are these.
pub fn qualifies_at(
    alloc: Global,
    cup: &Cup,
    finishes: &[Season],
    lots: &Lots,
    club: u8,
) -> Result<bool, OutOfMemory>
    requires cup { IsCup cup.now }
    requires finishes { AreSeasonsOf cup.now.groups finishes.now }
    requires drawn { IsTrue (are_lots (clubs_together cup.now.groups) lots.now) }
    requires in_range { club < clubs_together cup.now.groups }
    ensures { IfOk result (λ it. it ≡ qualifies_at cup.now finishes.now lots.now club) }
{
    let groups = cup.groups.as_slice();
    let mut first = 0;
    for group in 0..groups.len() {
        let sheet = &groups[group];
        let season = &finishes[group];
        let count = sheet.clubs.len() as u8;
        if is_within(first, count, club) {
            let place = place_in_group(alloc, sheet, season, lots, first, club - first)?;
            let contender = contender_of(sheet, season, first, club - first);
            return is_through(alloc, cup, finishes, lots, place, &contender);
        }
        first += count;
    }
    Ok(false)
}

// Whether a club at this place of its group qualifies.
fn is_through(
    alloc: Global,
    cup: &Cup,
    finishes: &[Season],
    lots: &Lots,
    place: u8,
    contender: &Contender,
) -> Result<bool, OutOfMemory>
    requires cup { IsCup cup.now }
    requires finishes { AreSeasonsOf cup.now.groups finishes.now }
    requires drawn { IsTrue (are_lots (clubs_together cup.now.groups) lots.now) }
    ensures { (mine : GroupState) (own : ℕ) → IsContender mine own contender.now
        → IfOk result (λ it. it ≡ (nat_le place direct_places
        || (place == direct_places + 1
        && nat_lt (count_by (has_better direct_places lots.now mine own)
        (other_groups mine (states_of cup.now finishes.now))) cup.now.quota))) }
{
    if place < CANDIDATE_PLACE {
        Ok(true)
    } else if place == CANDIDATE_PLACE {
        Ok(count_better(alloc, cup, finishes, lots, contender)? < cup.quota)
    } else {
        Ok(false)
    }
}
