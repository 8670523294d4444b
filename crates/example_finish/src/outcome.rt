//! The outcome of the option that a fixture takes. Mostly the outcomes that are left decide it, and
//! no goals are worked out.

ghost use Rattle.std.specs.Prelude.{◌≡◌, ◌≤ℤ◌, Bool, true, false, pos, List, Some};
ghost use Rattle.league_core.specs.declared.season.Score.{Score};
ghost use Rattle.league_core.specs.game.Sums.{match_points};
ghost use Rattle.league_core.specs.search.Proposals.{first_option};
ghost use Rattle.score_box.specs.inside.Cells.{IsCellOf};
ghost use Rattle.score_box.specs.inside.Points.{AreOutcomesAmong};
ghost use Rattle.example_finish.specs.inside.FirstOutcomes.{IsOutcomeOf};

use crate::option::first_option;
use league_core::Score;
use score_box::{Cell, OutcomesLeft};

/// Who wins a match.
#[derive(Clone, Copy)]
pub enum Outcome {
    HomeWin,
    Draw,
    AwayWin,
}

impl Outcome {
    // The outcome of a score.
    fn of(score: Score) -> Outcome
        ensures { IsOutcomeOf result score }
    {
        if score.away < score.home {
            Outcome::HomeWin
        } else if score.home == score.away {
            Outcome::Draw
        } else {
            Outcome::AwayWin
        }
    }

    /// What it is worth to the home side.
    pub fn home_points(self) -> i32
        ensures value { (score : Score) → IsOutcomeOf self score
            → result ≡ match_points score.home score.away false }
        ensures within { (pos 0 ≤ℤ result) × (result ≤ℤ pos 3) }
    {
        match self {
            Outcome::HomeWin => 3,
            Outcome::Draw => 1,
            Outcome::AwayWin => 0,
        }
    }

    /// What it is worth to the away side.
    pub fn away_points(self) -> i32
        ensures value { (score : Score) → IsOutcomeOf self score
            → result ≡ match_points score.away score.home false }
        ensures within { (pos 0 ≤ℤ result) × (result ≤ℤ pos 3) }
    {
        match self {
            Outcome::HomeWin => 0,
            Outcome::Draw => 1,
            Outcome::AwayWin => 3,
        }
    }
}

/// The outcome of the first option of a cell that has these outcomes left. The goals are looked at
/// only if both sides can win, both are wished alike and one of them does win.
pub fn first_outcome(cell: &Cell, left: OutcomesLeft, home: bool, away: bool) -> Outcome
    ensures { (options : List Score) (score : Score) → IsCellOf cell.now options
        → AreOutcomesAmong options left → first_option home away options ≡ Some score
        → IsOutcomeOf result score }
{
    match (home, away) {
        (true, true) => win_or_draw(cell, left),
        (true, false) => home_win_first(left),
        (false, true) => away_win_first(left),
        (false, false) => draw_or_win(cell, left),
    }
}

// The home side alone is wished points.
fn home_win_first(left: OutcomesLeft) -> Outcome
    ensures { (options : List Score) (score : Score) → AreOutcomesAmong options left
        → first_option true false options ≡ Some score → IsOutcomeOf result score }
{
    if left.home_win {
        Outcome::HomeWin
    } else if left.draw {
        Outcome::Draw
    } else {
        Outcome::AwayWin
    }
}

// The away side alone is wished points.
fn away_win_first(left: OutcomesLeft) -> Outcome
    ensures { (options : List Score) (score : Score) → AreOutcomesAmong options left
        → first_option false true options ≡ Some score → IsOutcomeOf result score }
{
    if left.away_win {
        Outcome::AwayWin
    } else if left.draw {
        Outcome::Draw
    } else {
        Outcome::HomeWin
    }
}

// Both sides are wished points.
fn win_or_draw(cell: &Cell, left: OutcomesLeft) -> Outcome
    ensures { (options : List Score) (score : Score) → IsCellOf cell.now options
        → AreOutcomesAmong options left → first_option true true options ≡ Some score
        → IsOutcomeOf result score }
{
    match (left.home_win, left.away_win) {
        (true, true) => of_first(cell, true),
        (true, false) => Outcome::HomeWin,
        (false, true) => Outcome::AwayWin,
        (false, false) => Outcome::Draw,
    }
}

// Neither side is wished points.
fn draw_or_win(cell: &Cell, left: OutcomesLeft) -> Outcome
    ensures { (options : List Score) (score : Score) → IsCellOf cell.now options
        → AreOutcomesAmong options left → first_option false false options ≡ Some score
        → IsOutcomeOf result score }
{
    match (left.draw, left.home_win, left.away_win) {
        (true, _, _) => Outcome::Draw,
        (false, true, true) => of_first(cell, false),
        (false, true, false) => Outcome::HomeWin,
        (false, false, _) => Outcome::AwayWin,
    }
}

// By the first option itself, if both sides are wished alike.
fn of_first(cell: &Cell, wish: bool) -> Outcome
    ensures { (options : List Score) (score : Score) → IsCellOf cell.now options
        → first_option wish wish options ≡ Some score → IsOutcomeOf result score }
{
    match first_option(cell, wish, wish) {
        Some(score) => Outcome::of(score),
        None => Outcome::Draw,
    }
}
