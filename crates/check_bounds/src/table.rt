//! Tables of sums: for each club, by its number, what its matches can add up to.

ghost use Rattle.std.specs.Prelude.{◌≡◌, ◌≢◌, ◌<◌, ◌≤◌, ◌+◌, ℕ, pos, neg_ℤ, true, IsTrue, length};
ghost use Rattle.league_core.specs.game.Sheets.{is_fixture};
ghost use Rattle.league_core.specs.game.Sums.{worth_to};
ghost use Rattle.league_core.specs.game.Ahead.{rank_of};
ghost use Rattle.league_core.specs.search.PointRanges.{one_value, added};
ghost use Rattle.check_bounds.specs.inside.IntRanges.{as_sum_range, range_at, IsRangeWithin};
ghost use Rattle.check_bounds.specs.inside.Terms.{worth_by};
ghost use Rattle.check_bounds.specs.inside.Tables.{ArePlayedOver, IsTableOf, TableTakes, worth_if};

use crate::extreme_scores::ExtremeScores;
use crate::int_range::{IntRange, look_range};
use crate::term::{Measure, Term};
use league_core::{Fixture, Sheet};

/// The sums of all clubs by one measure, over all matches.
pub fn sums_of(fixtures: &[Fixture], corners: &[ExtremeScores], kind: Measure) -> [IntRange; 32]
    requires { ArePlayedOver fixtures.now corners.now }
    ensures { IsTableOf (worth_to (worth_by kind)) fixtures.now corners.now result }
{
    let mut table = [IntRange::ZERO; 32];
    for i in 0..fixtures.len() {
        add_match(&mut table, fixtures[i], &corners[i], kind);
    }
    table
}

/// Adds a match to the sums of its two sides.
pub fn add_match(table: &mut [IntRange], fixture: Fixture, corners: &ExtremeScores, kind: Measure)
    requires long { length table.old ≡ 32 }
    requires team { IsTrue (is_fixture 24 fixture) }
    requires near { (club : ℕ) → IsRangeWithin 500000 (range_at table.old club) }
    ensures { TableTakes (worth_if true (worth_by kind) fixture) corners.now table.old table.new }
{
    let scores = corners.as_slice();
    add(
        table,
        fixture.home,
        look_range(scores, Term::Side { kind, away: false }),
    );
    add(
        table,
        fixture.away,
        look_range(scores, Term::Side { kind, away: true }),
    );
}

fn add(table: &mut [IntRange], club: u8, range: IntRange)
    requires in_range { club < length table.old }
    requires near { IsRangeWithin 500000 (range_at table.old club) }
    requires small { IsRangeWithin 255 range }
    ensures long { length table.new ≡ length table.old }
    ensures own { as_sum_range (range_at table.new club)
        ≡ added (as_sum_range (range_at table.old club)) (as_sum_range range) }
    ensures grows { (bound : ℕ) → IsRangeWithin bound (range_at table.old club)
        → IsRangeWithin (bound + 255) (range_at table.new club) }
    ensures others { (other : ℕ) → other ≢ club
        → range_at table.new other ≡ range_at table.old other }
{
    table[club as usize] = table[club as usize].plus(range);
}

/// The fixed ranks, each as a sum that is better the greater it is.
pub fn ranks_of(sheet: &Sheet) -> [IntRange; 32]
    requires { length sheet.now.clubs ≤ 24 }
    ensures { (club : ℕ) → as_sum_range (range_at result club)
        ≡ one_value (neg_ℤ (pos (rank_of sheet.now club))) }
{
    let mut table = [IntRange::ZERO; 32];
    for club in 0..sheet.clubs.len() {
        table[club] = IntRange::only(-i64::from(sheet.clubs.as_slice()[club].rank));
    }
    table
}
