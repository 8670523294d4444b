//! The matches that add something if both clubs are of a set: found in one walk, so that a part of
//! the set is looked at by them alone.

ghost use Rattle.std.specs.Prelude.{◌≡◌, ℕ, ◌+◌, ◌<◌, ◌≤◌, Bool, true, if◌then◌else◌, length, take};
ghost use Rattle.std.specs.Prelude.{slice_index_or};
ghost use Rattle.league_core.specs.game.Limits.{most_fixtures};
ghost use Rattle.score_box.specs.inside.ZoneBoxViews.{HasFinish};
ghost use Rattle.flow_bound.specs.declared.tally.Pair.{Pair};
ghost use Rattle.flow_bound.specs.inside.Fixtures.{pair_at, pairs_in, sum_at};
ghost use Rattle.flow_bound.specs.inside.Parts.{sum_of_pairs, side_of};
ghost use Rattle.flow_bound.specs.inside.Meetings.{IsTestOfSide, AreHeld};

use crate::cut::Cut;
use crate::tally::pair_within;
use league_core::ClubSet;
use score_box::ZoneBox;

/// Puts the numbers of these matches before the others; how many they are.
pub fn hold_meetings(held: &mut [u16], zone_box: &ZoneBox, cut: Cut, set: ClubSet) -> usize
    requires has_finish { HasFinish zone_box.now }
    requires room { length held.old ≡ most_fixtures }
    ensures many { result ≤ most_fixtures }
    ensures in_range { (k d : ℕ) → k < result
        → slice_index_or held.new k d < length zone_box.now.season.scores }
    ensures sums { (test : Pair → Bool) → IsTestOfSide (side_of set) test
        → sum_at test cut zone_box.now (take result held.new)
        ≡ sum_of_pairs test (pairs_in cut zone_box.now) }
{
    let unplayed = zone_box.unplayed();
    let _sheet = zone_box.sheet();
    let _season = zone_box.season();
    let mut count = 0;
    for i in 0..unplayed.len() {
        count = hold_if(held, count, zone_box, cut, unplayed[i], set);
    }
    count
}

// Puts the number after so many, if its match is one of these; how many they are then.
fn hold_if(
    held: &mut [u16],
    count: usize,
    zone_box: &ZoneBox,
    cut: Cut,
    number: u16,
    set: ClubSet,
) -> usize
    requires has_finish { HasFinish zone_box.now }
    requires in_range { number < length zone_box.now.season.scores }
    requires room { count < length held.old }
    ensures many { result ≤ count + 1 }
    ensures in_range { (bound : ℕ) → number < bound → AreHeld bound count held.old
        → AreHeld bound result held.new }
    ensures sums { (test : Pair → Bool) → IsTestOfSide (side_of set) test
        → sum_at test cut zone_box.now (take result held.new)
        ≡ sum_at test cut zone_box.now (take count held.old)
        + (if test (pair_at cut zone_box.now number)
        then (pair_at cut zone_box.now number).surplus else 0) }
{
    match pair_within(zone_box, cut, number, set) {
        Some(_pair) => {
            held[count] = number;
            count + 1
        }
        None => count,
    }
}
