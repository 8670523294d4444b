//! A club's sums over the matches of a season, by all six measures in one pass over the fixtures.

ghost use Rattle.std.specs.Prelude.{◌≡◌, ◌||◌, ◌==◌, ◌+◌, ◌+ℤ◌, ℕ};
ghost use Rattle.league_core.specs.game.Seasons.{IsLeague};
ghost use Rattle.league_core.specs.game.Sums.{if_played, sum_over};
ghost use Rattle.tie_criteria.specs.inside.Measures.{worth_of, value_in};
ghost use Rattle.tie_criteria.specs.declared.measure.Measure.{Measure};
ghost use Rattle.tie_criteria.specs.inside.Sums.{sum_by, IsNear};

use crate::measure::{Matches, Measure, if_played};
use league_core::{Fixture, Score, Season, Sheet};

/// What matches add up to for a club, by each measure.
#[derive(Clone, Copy)]
pub struct Sums {
    pub points: i32,
    pub difference: i32,
    pub goals: i32,
    pub away_goals: i32,
    pub wins: i32,
    pub away_wins: i32,
}

impl Sums {
    /// The sums of a club without a match.
    const NONE: Sums = Sums {
        points: 0,
        difference: 0,
        goals: 0,
        away_goals: 0,
        wins: 0,
        away_wins: 0,
    };

    // The sums with a match more.
    fn plus(&self, matches: Matches, club: u8, fixture: Fixture, score: Option<Score>) -> Sums
        requires { (measure : Measure) → IsNear 1000000 (sum_by self.now measure) }
        ensures sums { (measure : Measure) → sum_by result measure ≡ (sum_by self.now measure
            +ℤ if_played (value_in matches (worth_of measure) club) fixture score) }
        ensures near { (measure : Measure) (bound : ℕ) → IsNear bound (sum_by self.now measure)
            → IsNear (bound + 255) (sum_by result measure) }
    {
        if !plays(fixture, club) {
            return *self;
        }
        Sums {
            points: grown(self.points, Measure::Points, matches, club, fixture, score),
            difference: grown(
                self.difference,
                Measure::Difference,
                matches,
                club,
                fixture,
                score,
            ),
            goals: grown(self.goals, Measure::Goals, matches, club, fixture, score),
            away_goals: grown(
                self.away_goals,
                Measure::AwayGoals,
                matches,
                club,
                fixture,
                score,
            ),
            wins: grown(self.wins, Measure::Wins, matches, club, fixture, score),
            away_wins: grown(
                self.away_wins,
                Measure::AwayWins,
                matches,
                club,
                fixture,
                score,
            ),
        }
    }
}

// The sum with what a match is worth by the measure.
fn grown(
    sum: i32,
    measure: Measure,
    matches: Matches,
    club: u8,
    fixture: Fixture,
    score: Option<Score>,
) -> i32
    requires { IsNear 1000000 sum }
    ensures sum { result
        ≡ (sum +ℤ if_played (value_in matches (worth_of measure) club) fixture score) }
    ensures near { (bound : ℕ) → IsNear bound sum → IsNear (bound + 255) result }
{
    sum + if_played(measure, matches, club, fixture, score)
}

fn plays(fixture: Fixture, club: u8) -> bool
    ensures { result ≡ ((fixture.home == club) || (fixture.away == club)) }
{
    fixture.home == club || fixture.away == club
}

/// What all matches that count are worth to a club.
pub fn sums_of(sheet: &Sheet, season: &Season, matches: Matches, club: u8) -> Sums
    requires league { IsLeague sheet.now season.now }
    ensures sums { (measure : Measure) → sum_by result measure
        ≡ sum_over (value_in matches (worth_of measure) club)
        sheet.now.fixtures season.now.scores }
    ensures near { (measure : Measure) → IsNear 153000 (sum_by result measure) }
{
    let fixtures = sheet.fixtures.as_slice();
    let scores = season.scores();
    let mut total = Sums::NONE;
    for i in 0..fixtures.len() {
        total = total.plus(matches, club, fixtures[i], scores[i]);
    }
    total
}
