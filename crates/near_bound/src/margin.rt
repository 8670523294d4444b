//! What matches are worth to one club less what they are worth to another.

ghost use Rattle.std.specs.Prelude.{◌≡◌, ◌≢◌, ◌==◌, ◌+◌, ◌+ℤ◌, ◌-ℤ◌, ℕ, List, pos};
ghost use Rattle.std.specs.Prelude.{if◌then◌else◌, MatchOption};
ghost use Rattle.league_core.specs.declared.season.Score.{Score};
ghost use Rattle.league_core.specs.game.Sums as sums;
ghost use Rattle.near_laws.specs.Leads.{added_leads};
ghost use Rattle.near_bound.specs.inside.MatchesLeft.{IsLeftOf, IsNothing};
ghost use Rattle.near_bound.specs.inside.Margins.{IsMarginBy, IsMarginWithin, IsLeadWithin};
ghost use Rattle.near_bound.specs.inside.Margins.{IsLeastMargin, lead_by, record_parts};
ghost use Rattle.near_bound.specs.inside.Margins.{first_parts, overall_parts, IsWorstIn};

use crate::match_left::MatchLeft;
use league_core::{Fixture, Score};

/// The six sums of one club less those of another.
#[derive(Clone, Copy, Debug)]
pub struct Margin {
    pub points: i32,
    pub difference: i32,
    pub goals: i32,
    pub away_goals: i32,
    pub wins: i32,
    pub away_wins: i32,
}

impl Margin {
    /// That of no match.
    pub const NONE: Margin = Margin {
        points: 0,
        difference: 0,
        goals: 0,
        away_goals: 0,
        wins: 0,
        away_wins: 0,
    };

    /// Both together.
    pub fn plus(&self, other: &Margin) -> Margin
        requires near { IsMarginWithin 100000000 self.now }
        requires other_near { IsMarginWithin 100000000 other.now }
        ensures points { result.points ≡ self.now.points +ℤ other.now.points }
        ensures difference { result.difference ≡ self.now.difference +ℤ other.now.difference }
        ensures goals { result.goals ≡ self.now.goals +ℤ other.now.goals }
        ensures away_goals { result.away_goals ≡ self.now.away_goals +ℤ other.now.away_goals }
        ensures wins { result.wins ≡ self.now.wins +ℤ other.now.wins }
        ensures away_wins { result.away_wins ≡ self.now.away_wins +ℤ other.now.away_wins }
    {
        Margin {
            points: self.points + other.points,
            difference: self.difference + other.difference,
            goals: self.goals + other.goals,
            away_goals: self.away_goals + other.away_goals,
            wins: self.wins + other.wins,
            away_wins: self.away_wins + other.away_wins,
        }
    }

    /// The one less the other.
    pub fn less(&self, other: &Margin) -> Margin
        requires near { IsMarginWithin 100000000 self.now }
        requires other_near { IsMarginWithin 100000000 other.now }
        ensures points { result.points ≡ self.now.points -ℤ other.now.points }
        ensures difference { result.difference ≡ self.now.difference -ℤ other.now.difference }
        ensures goals { result.goals ≡ self.now.goals -ℤ other.now.goals }
        ensures away_goals { result.away_goals ≡ self.now.away_goals -ℤ other.now.away_goals }
        ensures wins { result.wins ≡ self.now.wins -ℤ other.now.wins }
        ensures away_wins { result.away_wins ≡ self.now.away_wins -ℤ other.now.away_wins }
    {
        Margin {
            points: self.points - other.points,
            difference: self.difference - other.difference,
            goals: self.goals - other.goals,
            away_goals: self.away_goals - other.away_goals,
            wins: self.wins - other.wins,
            away_wins: self.away_wins - other.away_wins,
        }
    }
}

/// What a match is worth to the one club less what it is worth to the other.
pub fn margin_at(fixture: Fixture, front: u8, back: u8, score: Score) -> Margin
    ensures value { IsMarginBy (λ worth. sums.worth_to worth front fixture score
        -ℤ sums.worth_to worth back fixture score) result }
    ensures near { IsMarginWithin 510 result }
{
    worth_to(fixture, front, score).less(&worth_to(fixture, back, score))
}

// What a match is worth to a club.
fn worth_to(fixture: Fixture, club: u8, score: Score) -> Margin
    ensures value { IsMarginBy (λ worth. sums.worth_to worth club fixture score) result }
    ensures near { IsMarginWithin 255 result }
{
    if fixture.home == club {
        worth_of_side(score.home, score.away, false)
    } else if fixture.away == club {
        worth_of_side(score.away, score.home, true)
    } else {
        Margin::NONE
    }
}

/// What it is worth to a side with these goals.
pub fn worth_of_side(scored: u8, conceded: u8, away: bool) -> Margin
    ensures value { IsMarginBy (λ worth. worth scored conceded away) result }
    ensures near { IsMarginWithin 255 result }
{
    let won = i32::from(scored > conceded);
    let drawn = i32::from(scored == conceded);
    let goals = i32::from(scored);
    Margin {
        points: 3 * won + drawn,
        difference: goals - i32::from(conceded),
        goals,
        away_goals: only_if(away, goals),
        wins: won,
        away_wins: only_if(away, won),
    }
}

fn only_if(counts: bool, amount: i32) -> i32
    ensures { result ≡ (if counts then amount else pos 0) }
{
    if counts { amount } else { 0 }
}

// The score that is worst for the front club in its match or best for the back club; of several
// with one goal difference, the one with the fewest goals of the front club, or the most of the
// back one.
fn worst_score(left: &MatchLeft, fixture: Fixture, front: u8, back: u8) -> Option<Score>
    ensures { MatchOption result (IsNothing left.now)
        (IsWorstIn left.now (fixture.home == front) (fixture.away == front) (fixture.home == back)
        (fixture.away == back)) }
{
    if fixture.home == front {
        left.worst(false, fixture.away == back)
    } else if fixture.away == front {
        left.worst(true, false)
    } else {
        left.worst(fixture.home == back, true)
    }
}

/// The least margin that a match leaves the one club over the other; none if no score is left.
pub fn least_margin(left: &MatchLeft, fixture: Fixture, front: u8, back: u8) -> Option<Margin>
    requires { front ≢ back }
    ensures least { (options : List Score) → IsLeftOf left.now options
        → IsLeastMargin fixture options front back result }
    ensures near { IsLeadWithin 510 result }
{
    match worst_score(left, fixture, front, back) {
        Some(score) => Some(margin_at(fixture, front, back, score)),
        None => None,
    }
}

/// Both leads together, of which none is the infinite one.
pub fn added(lead: Option<Margin>, other: Option<Margin>) -> Option<Margin>
    requires near { IsLeadWithin 100000000 lead }
    requires other_near { IsLeadWithin 100000000 other }
    ensures record_lead { lead_by record_parts result
        ≡ added_leads (lead_by record_parts lead) (lead_by record_parts other) }
    ensures first_lead { lead_by first_parts result
        ≡ added_leads (lead_by first_parts lead) (lead_by first_parts other) }
    ensures overall_lead { lead_by overall_parts result
        ≡ added_leads (lead_by overall_parts lead) (lead_by overall_parts other) }
    ensures near { (bound more : ℕ) → IsLeadWithin bound lead → IsLeadWithin more other
        → IsLeadWithin (bound + more) result }
{
    match lead {
        None => None,
        Some(margin) => match other {
            None => None,
            Some(more) => Some(margin.plus(&more)),
        },
    }
}
