//! What one match is worth to one club, by each of the six measures.

ghost use Rattle.std.specs.Prelude.{◌≡◌, ◌≤ℤ◌, Bool, pos, neg_ℤ};
ghost use Rattle.league_core.specs.game.Sums.{match_points, worth_to, if_played};
ghost use Rattle.tie_criteria.specs.inside.Measures.{worth_of, value_in};

use league_core::{ClubSet, Fixture, Score};

/// What is added up for a club.
#[derive(Clone, Copy)]
pub enum Measure {
    Points,
    Difference,
    Goals,
    AwayGoals,
    Wins,
    AwayWins,
}

/// The matches that are added up.
#[derive(Clone, Copy)]
pub enum Matches {
    All,
    /// Those with both ends in the group.
    Among(ClubSet),
}

/// Points of a side by its goals and the other side's.
pub fn match_points(scored: u8, conceded: u8) -> i32
    ensures points { (away : Bool) → result ≡ match_points scored conceded away }
    ensures low { pos 0 ≤ℤ result }
    ensures high { result ≤ℤ pos 3 }
{
    if scored > conceded {
        3
    } else if scored == conceded {
        1
    } else {
        0
    }
}

// What a match is worth to a side.
fn worth(measure: Measure, scored: u8, conceded: u8, away: bool) -> i32
    ensures worth { result ≡ worth_of measure scored conceded away }
    ensures low { neg_ℤ (pos 255) ≤ℤ result }
    ensures high { result ≤ℤ pos 255 }
{
    match measure {
        Measure::Points => match_points(scored, conceded),
        Measure::Difference => i32::from(scored) - i32::from(conceded),
        Measure::Goals => i32::from(scored),
        Measure::AwayGoals => if away { i32::from(scored) } else { 0 },
        Measure::Wins => i32::from(scored > conceded),
        Measure::AwayWins => i32::from(away && scored > conceded),
    }
}

// What a match is worth to a club, nothing if it does not play in it.
fn worth_to(measure: Measure, club: u8, fixture: Fixture, score: Score) -> i32
    ensures worth { result ≡ worth_to (worth_of measure) club fixture score }
    ensures low { neg_ℤ (pos 255) ≤ℤ result }
    ensures high { result ≤ℤ pos 255 }
{
    if fixture.home == club {
        worth(measure, score.home, score.away, false)
    } else if fixture.away == club {
        worth(measure, score.away, score.home, true)
    } else {
        0
    }
}

/// What a match that counts is worth to a club, nothing if it is not played.
pub fn if_played(
    measure: Measure,
    matches: Matches,
    club: u8,
    fixture: Fixture,
    score: Option<Score>,
) -> i32
    ensures worth { result ≡ if_played (value_in matches (worth_of measure) club) fixture score }
    ensures low { neg_ℤ (pos 255) ≤ℤ result }
    ensures high { result ≤ℤ pos 255 }
{
    let Some(score) = score else {
        return 0;
    };
    match matches {
        Matches::All => worth_to(measure, club, fixture, score),
        Matches::Among(group) => {
            if group.has(fixture.home) && group.has(fixture.away) {
                worth_to(measure, club, fixture, score)
            } else {
                0
            }
        }
    }
}
