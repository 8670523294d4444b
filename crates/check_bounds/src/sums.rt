//! Sums over all matches of the clubs of a group, one measure in one walk.

ghost use Rattle.std.specs.Prelude.{◌≡◌, ◌<◌, ◌||◌, ℕ, IsTrue, length};
ghost use Rattle.league_core.specs.game.Sheets.{is_fixture};
ghost use Rattle.league_core.specs.game.Sums.{has_club};
ghost use Rattle.league_core.specs.game.ClubSets.{clubs_in};
ghost use Rattle.check_bounds.specs.inside.Terms.{worth_by};
ghost use Rattle.check_bounds.specs.inside.IntRanges.{range_at, IsRangeWithin};
ghost use Rattle.check_bounds.specs.inside.Tables.{ArePlayedOver, TableTakes, IsTableOf, worth_if};
ghost use Rattle.check_bounds.specs.inside.Walks.{worth_near};

use crate::extreme_scores::ExtremeScores;
use crate::int_range::IntRange;
use crate::table::add_match;
use crate::term::Measure;
use league_core::{ClubSet, Fixture};

/// The sums of clubs over the matches that have an end in the group; for its clubs these are all.
pub fn sums_in(
    fixtures: &[Fixture],
    corners: &[ExtremeScores],
    kind: Measure,
    group: ClubSet,
) -> [IntRange; 32]
    requires { ArePlayedOver fixtures.now corners.now }
    ensures table { IsTableOf (worth_near (clubs_in group) (worth_by kind)) fixtures.now corners.now
        result }
    ensures near { (club : ℕ) → IsRangeWithin 153000 (range_at result club) }
{
    let mut table = [IntRange::ZERO; 32];
    for i in 0..fixtures.len() {
        let counts = has_one(group, fixtures[i]);
        add_if(&mut table, fixtures[i], &corners[i], kind, counts);
    }
    table
}

// Adds a match to the sums of its two sides, if it counts.
fn add_if(
    table: &mut [IntRange],
    fixture: Fixture,
    corners: &ExtremeScores,
    kind: Measure,
    counts: bool,
)
    requires long { length table.old ≡ 32 }
    requires team { IsTrue (is_fixture 24 fixture) }
    requires near { (club : ℕ) → IsRangeWithin 500000 (range_at table.old club) }
    ensures { TableTakes (worth_if counts (worth_by kind) fixture) corners.now table.old table.new }
{
    if counts {
        add_match(table, fixture, corners, kind);
    }
}

// An end of the match is of the group.
fn has_one(group: ClubSet, fixture: Fixture) -> bool
    ensures { result
        ≡ (has_club (clubs_in group) fixture.home || has_club (clubs_in group) fixture.away) }
{
    group.has(fixture.home) || group.has(fixture.away)
}
