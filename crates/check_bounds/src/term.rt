//! What a score is worth, by one of the measures of the ranking.

ghost use Rattle.std.specs.Prelude.{◌≡◌, ◌≤ℤ◌, pos, neg_ℤ, true, if◌then◌else◌};
ghost use Rattle.league_core.specs.search.PointRanges as ranges;
ghost use Rattle.league_core.specs.game.Sums as sums;
ghost use Rattle.check_bounds.specs.inside.Terms as looks;
ghost use Rattle.check_bounds.specs.inside.Terms.{worth_by};

use league_core::Score;

/// What is added up over matches.
#[derive(Clone, Copy)]
pub enum Measure {
    Points,
    Difference,
    Goals,
    AwayGoals,
    Wins,
    AwayWins,
}

/// What is looked at in a score: its worth to one side, or the match points of the sides that
/// count.
#[derive(Clone, Copy)]
pub enum Term {
    Side { kind: Measure, away: bool },
    Both { home: bool, away: bool },
}

/// The number that the look sees in the score.
pub fn term_value(look: Term, score: Score) -> i64
    ensures value { result ≡ looks.term_value look score }
    ensures near { (neg_ℤ (pos 255) ≤ℤ result) × (result ≤ℤ pos 255) }
{
    match look {
        Term::Side { kind, away } => side_worth(kind, away, score),
        Term::Both { home, away } => points_of_sides(home, away, score),
    }
}

fn side_worth(kind: Measure, away: bool, score: Score) -> i64
    ensures value { result ≡ looks.side_worth kind away score }
    ensures near { (neg_ℤ (pos 255) ≤ℤ result) × (result ≤ℤ pos 255) }
{
    if away {
        worth(kind, score.away, score.home, true)
    } else {
        worth(kind, score.home, score.away, false)
    }
}

fn worth(kind: Measure, scored: u8, conceded: u8, away: bool) -> i64
    ensures value { result ≡ worth_by kind scored conceded away }
    ensures near { (neg_ℤ (pos 255) ≤ℤ result) × (result ≤ℤ pos 255) }
{
    match kind {
        Measure::Points => match_points(scored, conceded),
        Measure::Difference => i64::from(scored) - i64::from(conceded),
        Measure::Goals => i64::from(scored),
        Measure::AwayGoals => counted(away, i64::from(scored)),
        Measure::Wins => counted(conceded < scored, 1),
        Measure::AwayWins => counted(away && conceded < scored, 1),
    }
}

fn match_points(scored: u8, conceded: u8) -> i64
    ensures points { result ≡ sums.match_points scored conceded true }
    ensures least { pos 0 ≤ℤ result }
    ensures most { result ≤ℤ pos 3 }
{
    if conceded < scored {
        3
    } else if scored == conceded {
        1
    } else {
        0
    }
}

fn counted(counts: bool, number: i64) -> i64
    ensures { result ≡ (if counts then number else pos 0) }
{
    if counts { number } else { 0 }
}

fn points_of_sides(home: bool, away: bool, score: Score) -> i64
    ensures value { result ≡ ranges.points_of_sides home away score }
    ensures near { (neg_ℤ (pos 255) ≤ℤ result) × (result ≤ℤ pos 255) }
{
    points_if(home, score.home, score.away) + points_if(away, score.away, score.home)
}

fn points_if(counts: bool, scored: u8, conceded: u8) -> i64
    ensures value { result
        ≡ (if counts then sums.match_points scored conceded true else pos 0) }
    ensures least { pos 0 ≤ℤ result }
    ensures most { result ≤ℤ pos 3 }
{
    if counts {
        match_points(scored, conceded)
    } else {
        0
    }
}
