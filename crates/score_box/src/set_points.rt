//! The least and the most points of a set of clubs in a box: what each of its clubs has alone, and
//! beyond that what the open matches between two of them add. Each match takes the outcome that
//! gives the set least, or most.

ghost use Rattle.std.specs.Prelude.{◌≡◌, ◌<◌, ◌≤◌, ℕ, pos, neg_ℤ, ◌-ℤ◌, ◌≤ℤ◌, List};
ghost use Rattle.std.specs.Prelude.{length, slice_index};
ghost use Rattle.std.specs.List.{All};
ghost use Rattle.league_core.specs.declared.sheet.Fixture.{Fixture};
ghost use Rattle.league_core.specs.game.ClubSets.{clubs_in};
ghost use Rattle.league_core.specs.game.Limits.{most_fixtures};
ghost use Rattle.league_core.specs.search.PointRanges.{total_of};
ghost use Rattle.score_box.specs.inside.Boxes.{HasOptions};
ghost use Rattle.score_box.specs.inside.Ends.{end_at};
ghost use Rattle.score_box.specs.inside.OpenSides.{AreSidesOf};
ghost use Rattle.score_box.specs.inside.Points.{IsBeyondOver};

use crate::cell::Cell;
use crate::ends::Ends;
use crate::open_matches::OpenMatches;
use crate::points::PointRange;
use league_core::ClubSet;

/// What the clubs of a set have alone, added, less what is taken off each.
#[inline(always)]
pub fn alone(ends: &Ends, deductions: &[u8], set: ClubSet) -> PointRange
    requires low { (club : ℕ) → (pos 0 ≤ℤ end_at ends.now.lows club)
        × (end_at ends.now.lows club ≤ℤ pos 1800) }
    requires high { (club : ℕ) → (pos 0 ≤ℤ end_at ends.now.highs club)
        × (end_at ends.now.highs club ≤ℤ pos 1800) }
    ensures least { result.least ≡ total_of
        (λ club. end_at ends.now.lows club -ℤ pos (slice_index deductions.now club))
        (clubs_in set) }
    ensures most { result.most ≡ total_of
        (λ club. end_at ends.now.highs club -ℤ pos (slice_index deductions.now club))
        (clubs_in set) }
    ensures near_least { (neg_ℤ (pos 57600) ≤ℤ result.least) × (result.least ≤ℤ pos 57600) }
    ensures near_most { (neg_ℤ (pos 57600) ≤ℤ result.most) × (result.most ≤ℤ pos 57600) }
{
    let mut points = PointRange { least: 0, most: 0 };
    for club in set.clubs() {
        points = points.with(own_points(ends, deductions, club));
    }
    points
}

// What one club has alone, less what is taken off it; past the clubs there is nothing.
fn own_points(ends: &Ends, deductions: &[u8], club: u8) -> PointRange
    requires low { (pos 0 ≤ℤ end_at ends.now.lows club) × (end_at ends.now.lows club ≤ℤ pos 1800) }
    requires high { (pos 0 ≤ℤ end_at ends.now.highs club)
        × (end_at ends.now.highs club ≤ℤ pos 1800) }
    ensures least { result.least
        ≡ end_at ends.now.lows club -ℤ pos (slice_index deductions.now club) }
    ensures most { result.most
        ≡ end_at ends.now.highs club -ℤ pos (slice_index deductions.now club) }
    ensures near_least { (neg_ℤ (pos 1800) ≤ℤ result.least) × (result.least ≤ℤ pos 1800) }
    ensures near_most { (neg_ℤ (pos 1800) ≤ℤ result.most) × (result.most ≤ℤ pos 1800) }
{
    let off = i32::from(taken_off(deductions, club));
    PointRange {
        least: number_at(&ends.lows, club) - off,
        most: number_at(&ends.highs, club) - off,
    }
}

fn number_at(numbers: &[i32], club: u8) -> i32
    ensures { result ≡ end_at numbers.now club }
{
    if (club as usize) < numbers.len() {
        numbers[club as usize]
    } else {
        0
    }
}

fn taken_off(deductions: &[u8], club: u8) -> u8
    ensures { result ≡ slice_index deductions.now club }
{
    if (club as usize) < deductions.len() {
        deductions[club as usize]
    } else {
        0
    }
}

/// What the open matches between two clubs of a set leave both together, beyond what they leave
/// each of them alone.
#[inline(always)]
pub fn beyond(open_matches: &OpenMatches, cells: &[Cell], set: ClubSet) -> PointRange
    requires many { length open_matches.now.sides.items ≡ length open_matches.now.numbers.items }
    requires in_range { All (λ number. number < length cells.now) open_matches.now.numbers.items }
    requires few { length open_matches.now.numbers.items ≤ most_fixtures }
    requires some { HasOptions cells.now }
    ensures beyond { (fixtures : List Fixture)
        → AreSidesOf fixtures open_matches.now.numbers.items open_matches.now.sides.items
        → IsBeyondOver fixtures cells.now open_matches.now.numbers.items (clubs_in set) result }
    ensures near_least { (neg_ℤ (pos 3600) ≤ℤ result.least) × (result.least ≤ℤ pos 3600) }
    ensures near_most { (neg_ℤ (pos 3600) ≤ℤ result.most) × (result.most ≤ℤ pos 3600) }
{
    let mut points = PointRange { least: 0, most: 0 };
    let mut place = open_matches.next_among(0, set);
    while place < open_matches.numbers.len() {
        let left = cells[open_matches.numbers[place] as usize].left();
        points = points.with(left.beyond());
        place = open_matches.next_among(place + 1, set);
    }
    points
}
