//! Repeatedly drops clubs that no set of greatest excess needs.
//!
//! A club whose own entry and all its pairs together add nothing is no loss to any set. Without it
//! others may add nothing. If none is left no set has an excess, and no flow is needed. The matches
//! of the clubs are found once and held on the stack, so that no memory is taken.

ghost use Rattle.std.specs.Prelude.{◌≡◌, ℕ, ◌+◌, ◌*◌, ◌<◌, ◌≤◌, ◌+ℤ◌, ◌&&◌, if◌then◌else◌, pos};
ghost use Rattle.std.specs.Prelude.{int_lt, Bool, IsTrue, length, take, slice_index_or, ◌↔◌};
ghost use Rattle.league_core.specs.game.ClubSets.{clubs_in};
ghost use Rattle.league_core.specs.game.Limits.{most_fixtures};
ghost use Rattle.score_box.specs.inside.ZoneBoxViews.{HasFinish};
ghost use Rattle.flow_bound.specs.inside.Parts.{most_credits, EachAdds, IsClubTable, KeepsExcess};
ghost use Rattle.flow_bound.specs.inside.Parts.{entry, side_of, sum_of_side};
ghost use Rattle.flow_bound.specs.inside.Network.{has_away_in, has_home_in};
ghost use Rattle.flow_bound.specs.inside.Fixtures.{pair_at, pairs_in, sum_at};

use crate::cut::Cut;
use crate::meetings::hold_meetings;
use crate::table::{Table, credit, is_over};
use crate::tally::pair_within;
use league_core::ClubSet;
use league_core::limits::{MOST_FIXTURES, SET_WIDTH};
use score_box::ZoneBox;

/// The clubs that may be needed.
pub fn peel(zone_box: &ZoneBox, cut: Cut, alone: &Table, marked: ClubSet) -> ClubSet
    requires has_finish { HasFinish zone_box.now }
    requires sized { IsClubTable most_credits alone.now }
    ensures kept { KeepsExcess alone.now (pairs_in cut zone_box.now) (side_of marked)
        (side_of result) }
    ensures needed { EachAdds alone.now (pairs_in cut zone_box.now) (side_of result) }
{
    let mut held = [0; MOST_FIXTURES as usize];
    let count = hold_meetings(&mut held, zone_box, cut, marked);
    let mut rest = marked;
    // Each round but the last drops a club, and a set has no more than `SET_WIDTH`.
    for _round in 0..SET_WIDTH {
        let next = positive(
            &upper_bounds(zone_box, cut, alone, rest, &held, count),
            rest,
        );
        if next.is_empty() {
            return next;
        }
        if are_as_many(next, rest) {
            return rest;
        }
        rest = next;
    }
    rest
}

fn are_as_many(set: ClubSet, other: ClubSet) -> bool
    ensures { IsTrue result ↔ (length (clubs_in set) ≡ length (clubs_in other)) }
{
    set.len() == other.len()
}

// What each club can add at most if only clubs of `rest` are taken: its own entry, and all its
// pairs there, of the matches whose numbers are held first.
fn upper_bounds(
    zone_box: &ZoneBox,
    cut: Cut,
    alone: &Table,
    rest: ClubSet,
    held: &[u16],
    count: usize,
) -> Table
    requires has_finish { HasFinish zone_box.now }
    requires sized { IsClubTable most_credits alone.now }
    requires room { length held.now ≡ most_fixtures }
    requires many { count ≤ most_fixtures }
    requires in_range { (k d : ℕ) → k < count
        → slice_index_or held.now k d < length zone_box.now.season.scores }
    ensures { (side : ℕ → Bool) → sum_of_side result side
        ≡ sum_of_side alone.now side
        +ℤ pos (sum_at (has_home_in (side_of rest) side) cut zone_box.now (take count held.now))
        +ℤ pos (sum_at (has_away_in (side_of rest) side) cut zone_box.now (take count held.now)) }
{
    let mut reach = *alone;
    for i in 0..count {
        credit_match(&mut reach, zone_box, cut, held[i], rest);
    }
    reach
}

// Adds the surplus of a match to the entries of both its clubs, if both are in the set.
fn credit_match(table: &mut Table, zone_box: &ZoneBox, cut: Cut, number: u16, set: ClubSet)
    requires has_finish { HasFinish zone_box.now }
    requires in_range { number < length zone_box.now.season.scores }
    requires sized { (credits : ℕ) × (credits < 5 * most_fixtures) × IsClubTable credits table.old }
    ensures sums { (side : ℕ → Bool) → sum_of_side table.new side
        ≡ sum_of_side table.old side
        +ℤ pos (if has_home_in (side_of set) side (pair_at cut zone_box.now number)
        then (pair_at cut zone_box.now number).surplus else 0)
        +ℤ pos (if has_away_in (side_of set) side (pair_at cut zone_box.now number)
        then (pair_at cut zone_box.now number).surplus else 0) }
    ensures sized { (credits : ℕ) → IsClubTable credits table.old
        → IsClubTable (credits + 2) table.new }
{
    if let Some(pair) = pair_within(zone_box, cut, number, set) {
        let surplus = i64::from(pair.surplus);
        credit(table, pair.home, surplus);
        credit(table, pair.away, surplus);
    }
}

// The clubs of a set with an entry above 0.
fn positive(table: &Table, set: ClubSet) -> ClubSet
    ensures { (club : ℕ) → side_of result club
        ≡ (side_of set club && int_lt (pos 0) (entry table.now club)) }
{
    set.keep(|club| is_over(table, club))
}
