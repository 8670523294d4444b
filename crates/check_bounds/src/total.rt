//! The points of a set of clubs together, and of each club alone.

ghost use Rattle.std.specs.Prelude.{◌≡◌, ◌<◌, ◌≤◌, ◌≤ℤ◌, ◌∷◌, [], ℕ, pos, length, slice_index};
ghost use Rattle.std.specs.Prelude.{if◌then◌else◌};
ghost use Rattle.league_core.specs.game.ClubSets.{clubs_in};
ghost use Rattle.league_core.specs.search.PointRanges.{points_range, total_of};
ghost use Rattle.check_bounds.specs.inside.IntRanges as ranges;
ghost use Rattle.check_bounds.specs.inside.IntRanges.{as_sum_range, IsRangeWithin};

use crate::cells::Cells;
use crate::int_range::IntRange;
use league_core::{ClubSet, Season};

/// The least and the most points that the clubs of a set can have together: match points less what
/// is taken off.
pub fn points_of_set(season: &Season, cells: &Cells, set: ClubSet) -> IntRange
    requires { length season.now.deductions ≤ 24 }
    ensures points { as_sum_range result
        ≡ points_range cells.now.sheet season.now cells.now.corners (clubs_in set) }
    ensures near { IsRangeWithin 200000 result }
{
    let won = cells.won_by(set);
    won.less(taken_off(season.deductions(), set))
}

// The points that are taken off the clubs of a set.
fn taken_off(deductions: &[u8], set: ClubSet) -> i64
    requires { length deductions.now ≤ 24 }
    ensures points { result
        ≡ total_of (λ club. pos (slice_index deductions.now club)) (clubs_in set) }
    ensures within { (pos 0 ≤ℤ result) × (result ≤ℤ pos 6120) }
{
    let mut taken = 0;
    for club in 0..deductions.len() {
        taken += taken_if(set.has(club as u8), deductions[club]);
    }
    taken
}

fn taken_if(counts: bool, points: u8) -> i64
    ensures value { result ≡ (if counts then pos points else pos 0) }
    ensures within { (pos 0 ≤ℤ result) × (result ≤ℤ pos 255) }
{
    if counts { i64::from(points) } else { 0 }
}

/// The points of each club.
pub fn points_table(season: &Season, cells: &Cells) -> [IntRange; 32]
    ensures { (club : ℕ) → club < 32 → as_sum_range (ranges.range_at result club)
        ≡ points_range cells.now.sheet season.now cells.now.corners (club ∷ []) }
{
    let mut table = [IntRange::ZERO; 32];
    for club in 0..32 {
        table[club as usize] = cells.points(season, club);
    }
    table
}
