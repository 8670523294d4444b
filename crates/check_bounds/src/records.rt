//! The head-to-head records of a group, in one walk over the matches.

ghost use Rattle.std.specs.Prelude.{◌≡◌, ◌&&◌, IsTrue};
ghost use Rattle.league_core.specs.game.Sheets.{is_fixture};
ghost use Rattle.league_core.specs.game.Sums.{has_club};
ghost use Rattle.league_core.specs.game.ClubSets.{clubs_in};
ghost use Rattle.check_bounds.specs.inside.Tables.{ArePlayedOver};
ghost use Rattle.check_bounds.specs.inside.Walks.{AddsRecord, AreRecordsNear, AreRecordsOf};

use crate::extreme_scores::ExtremeScores;
use crate::int_range::IntRange;
use crate::table::add_match;
use crate::term::Measure;
use league_core::{ClubSet, Fixture};

/// Points, goal difference and goals of each club, over the matches of a group.
#[derive(Clone, Copy)]
pub struct Records {
    pub points: [IntRange; 32],
    pub difference: [IntRange; 32],
    pub goals: [IntRange; 32],
}

/// The records of all clubs over the matches with both ends in the group.
pub fn records_of(fixtures: &[Fixture], corners: &[ExtremeScores], group: ClubSet) -> Records
    requires { ArePlayedOver fixtures.now corners.now }
    ensures { AreRecordsOf (clubs_in group) fixtures.now corners.now result }
{
    let mut records = Records {
        points: [IntRange::ZERO; 32],
        difference: [IntRange::ZERO; 32],
        goals: [IntRange::ZERO; 32],
    };
    for i in 0..fixtures.len() {
        let counts = has_both(group, fixtures[i]);
        add_record(&mut records, fixtures[i], &corners[i], counts);
    }
    records
}

// Adds a match to the records of its two sides, if it counts.
fn add_record(records: &mut Records, fixture: Fixture, corners: &ExtremeScores, counts: bool)
    requires team { IsTrue (is_fixture 24 fixture) }
    requires near { AreRecordsNear records.old }
    ensures { AddsRecord counts fixture corners.now records.old records.new }
{
    if counts {
        add_match(&mut records.points, fixture, corners, Measure::Points);
        add_match(
            &mut records.difference,
            fixture,
            corners,
            Measure::Difference,
        );
        add_match(&mut records.goals, fixture, corners, Measure::Goals);
    }
}

// Both ends of the match are of the group.
fn has_both(group: ClubSet, fixture: Fixture) -> bool
    ensures { result
        ≡ (has_club (clubs_in group) fixture.home && has_club (clubs_in group) fixture.away) }
{
    group.has(fixture.home) && group.has(fixture.away)
}
