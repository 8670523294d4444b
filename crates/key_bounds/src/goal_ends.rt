//! What a match comes to for a side that wins, draws or loses it, by the goals of both sides.

ghost use Rattle.std.specs.Prelude.{◌≡◌, ◌≤ℤ◌, ◌-ℤ◌, ℤ, pos, neg_ℤ, if◌then◌else◌};
ghost use Rattle.score_box.specs.declared.cell.Cell.{Cell};
ghost use Rattle.score_box.specs.inside.Cells.{allows};
ghost use Rattle.tie_bound.specs.inside.IntRanges.{IsMargin};
ghost use Rattle.tie_bound.specs.inside.Sides.{Wins, Draws, Loses, AreGoalsOf};
ghost use Rattle.key_bounds.specs.inside.RowEnds.{AreEndsOf, as_goals, goals_of, AreGoals};
ghost use Rattle.key_bounds.specs.inside.RowEnds.{totals_row};

use crate::row_ends::RowEnds;
use score_box::{ScoreRange, Totals};

/// The least and the most goals of one side.
#[derive(Clone, Copy)]
pub struct GoalEnds {
    pub least: u8,
    pub most: u8,
}

impl GoalEnds {
    /// Those of a side over the scores of one outcome.
    pub fn of(goals: &ScoreRange, away: bool) -> GoalEnds
        ensures { as_goals result ≡ goals_of away goals.now }
    {
        if away {
            GoalEnds {
                least: goals.away_least,
                most: goals.away_most,
            }
        } else {
            GoalEnds {
                least: goals.home_least,
                most: goals.home_most,
            }
        }
    }

    // The least margin by which a side with these goals wins: one goal if the goals overlap.
    fn closest(self, other: GoalEnds) -> i32
        ensures margin { (widest : ℤ) → widest ≡ (pos self.most -ℤ pos other.least)
            → IsMargin (as_goals self) (as_goals other) (record {
              least = result;
              greatest = widest;
            }) }
        ensures within { (pos 1 ≤ℤ result) × (result ≤ℤ pos 255) }
    {
        (i32::from(self.least) - i32::from(other.most)).max(1)
    }

    // The greatest margin.
    fn widest(self, other: GoalEnds) -> i32
        ensures value { result ≡ (pos self.most -ℤ pos other.least) }
        ensures within { (neg_ℤ (pos 255) ≤ℤ result) × (result ≤ℤ pos 255) }
    {
        i32::from(self.most) - i32::from(other.least)
    }
}

/// The rows of a side that wins with these goals against those of the other.
pub fn won(own: GoalEnds, other: GoalEnds, away: bool) -> RowEnds
    ensures { (cell : Cell) → Wins cell away → AreGoals cell away own other
        → AreEndsOf (allows cell) away result }
{
    let closest = own.closest(other);
    let widest = own.widest(other);
    RowEnds {
        least: row(3, closest, own.least, 1, away),
        greatest: row(3, widest, own.most, 1, away),
    }
}

/// The rows of a side that draws with these goals.
pub fn drawn(own: GoalEnds, away: bool) -> RowEnds
    ensures { (cell : Cell) → Draws cell away → AreGoalsOf cell away (as_goals own)
        → AreEndsOf (allows cell) away result }
{
    RowEnds {
        least: row(1, 0, own.least, 0, away),
        greatest: row(1, 0, own.most, 0, away),
    }
}

/// The rows of a side that loses with these goals against those of the other.
pub fn lost(own: GoalEnds, other: GoalEnds, away: bool) -> RowEnds
    ensures { (cell : Cell) → Loses cell away → AreGoals cell away own other
        → AreEndsOf (allows cell) away result }
{
    let closest = other.closest(own);
    let widest = other.widest(own);
    RowEnds {
        least: row(0, -widest, own.least, 0, away),
        greatest: row(0, -closest, own.most, 0, away),
    }
}

// A row by the goals of a side and by whether it is away, of which two columns speak alone.
fn row(points: i32, difference: i32, scored: u8, won: i32, away: bool) -> Totals
    ensures { result ≡ totals_row points difference scored won away }
{
    let goals = i32::from(scored);
    Totals {
        points,
        difference,
        goals,
        away_goals: only_if(away, goals),
        wins: won,
        away_wins: only_if(away, won),
    }
}

fn only_if(counts: bool, amount: i32) -> i32
    ensures { result ≡ (if counts then amount else pos 0) }
{
    if counts { amount } else { 0 }
}
