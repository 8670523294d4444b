//! What one match can add to the sums of its two sides, if all its open scores have one outcome.
//! Points and wins then have one value; goals and goal difference lie between ends that are found
//! in a fixed number of steps.

ghost use Rattle.std.specs.Prelude.{◌≡◌, Bool, true, false, not};
ghost use Rattle.score_box.specs.declared.cell.Cell.{Cell};
ghost use Rattle.score_box.specs.inside.Cells.{HasOneOutcome};
ghost use Rattle.tie_bound.specs.inside.Sides.{AreGoalsOf, Wins, Draws, Loses, AreSumsOf};

use crate::int_range::{GoalRange, IntRange};
use crate::sums::Sums;
use score_box::{Cell, ScoreRange};

/// What a match adds for its two sides.
#[derive(Clone, Copy)]
pub struct Sides {
    pub home: Sums,
    pub away: Sums,
}

impl Sides {
    /// The two sides of a match with these open scores; nothing if none is open.
    pub fn of(cell: &Cell) -> Sides
        requires { HasOneOutcome cell.now }
        ensures home { AreSumsOf cell.now false result.home }
        ensures away { AreSumsOf cell.now true result.away }
    {
        if let Some(goals) = cell.home_wins() {
            return Sides {
                home: won(home_goals(&goals), away_goals(&goals), false),
                away: lost(away_goals(&goals), home_goals(&goals), true),
            };
        }
        if let Some(goals) = cell.draws() {
            return Sides {
                home: drawn(home_goals(&goals), false),
                away: drawn(away_goals(&goals), true),
            };
        }
        if let Some(goals) = cell.away_wins() {
            return Sides {
                home: lost(home_goals(&goals), away_goals(&goals), false),
                away: won(away_goals(&goals), home_goals(&goals), true),
            };
        }
        Sides {
            home: Sums::NONE,
            away: Sums::NONE,
        }
    }
}

fn home_goals(goals: &ScoreRange) -> GoalRange
    ensures least { result.least ≡ goals.now.home_least }
    ensures most { result.most ≡ goals.now.home_most }
{
    GoalRange {
        least: goals.home_least,
        most: goals.home_most,
    }
}

fn away_goals(goals: &ScoreRange) -> GoalRange
    ensures least { result.least ≡ goals.now.away_least }
    ensures most { result.most ≡ goals.now.away_most }
{
    GoalRange {
        least: goals.away_least,
        most: goals.away_most,
    }
}

// The sums of a side that wins with these goals against those of the other.
fn won(own: GoalRange, other: GoalRange, away: bool) -> Sums
    ensures { (cell : Cell) → Wins cell away → AreGoalsOf cell away own
        → AreGoalsOf cell (not away) other → AreSumsOf cell away result }
{
    Sums {
        points: IntRange::only(3),
        difference: own.margin(other),
        goals: own.as_int_range(),
        away_goals: own.as_int_range().only_if(away),
        wins: IntRange::only(1),
        away_wins: IntRange::only(1).only_if(away),
    }
}

fn drawn(own: GoalRange, away: bool) -> Sums
    ensures { (cell : Cell) → Draws cell away → AreGoalsOf cell away own
        → AreSumsOf cell away result }
{
    Sums {
        points: IntRange::only(1),
        difference: IntRange::only(0),
        goals: own.as_int_range(),
        away_goals: own.as_int_range().only_if(away),
        wins: IntRange::only(0),
        away_wins: IntRange::only(0),
    }
}

fn lost(own: GoalRange, other: GoalRange, away: bool) -> Sums
    ensures { (cell : Cell) → Loses cell away → AreGoalsOf cell away own
        → AreGoalsOf cell (not away) other → AreSumsOf cell away result }
{
    Sums {
        points: IntRange::only(0),
        difference: other.margin(own).negated(),
        goals: own.as_int_range(),
        away_goals: own.as_int_range().only_if(away),
        wins: IntRange::only(0),
        away_wins: IntRange::only(0),
    }
}
