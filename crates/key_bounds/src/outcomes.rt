//! What the scores that a match has left come to for one of its sides, outcome by outcome.

ghost use Rattle.std.specs.Prelude.{Bool, ◌||◌};
ghost use Rattle.league_core.specs.declared.season.Score.{Score};
ghost use Rattle.league_core.specs.search.Options.{is_home_win, is_draw, is_away_win};
ghost use Rattle.score_box.specs.declared.cell.Cell.{Cell};
ghost use Rattle.score_box.specs.inside.Cells.{IsScoreRangeOf};
ghost use Rattle.key_bounds.specs.inside.RowEnds.{AreEndsOf, AreEndsIfAny, passing, LeavesEnds};

use crate::goal_ends::{GoalEnds, drawn, lost, won};
use crate::row_ends::RowEnds;
use score_box::{Cell, ScoreRange};

/// The rows of a side over the scores of a cell; those of no match if it has none.
pub fn side_ends(cell: &Cell, away: bool) -> RowEnds
    ensures { LeavesEnds cell.now away result }
{
    let home_wins = at_home_wins(cell, away);
    let draws = at_draws(cell, away);
    let away_wins = at_away_wins(cell, away);
    match either(either(home_wins, draws), away_wins) {
        Some(ends) => ends,
        None => RowEnds::NONE,
    }
}

fn at_home_wins(cell: &Cell, away: bool) -> Option<RowEnds>
    ensures { AreEndsIfAny (passing cell.now is_home_win) away result }
{
    match cell.home_wins() {
        None => None,
        Some(goals) => Some(of_home_win(&goals, away)),
    }
}

fn of_home_win(goals: &ScoreRange, away: bool) -> RowEnds
    ensures { (cell : Cell) → IsScoreRangeOf cell is_home_win goals.now
        → AreEndsOf (passing cell is_home_win) away result }
{
    let home = GoalEnds::of(goals, false);
    let visitors = GoalEnds::of(goals, true);
    if away {
        lost(visitors, home, true)
    } else {
        won(home, visitors, false)
    }
}

fn at_draws(cell: &Cell, away: bool) -> Option<RowEnds>
    ensures { AreEndsIfAny (passing cell.now is_draw) away result }
{
    match cell.draws() {
        None => None,
        Some(goals) => Some(of_draw(&goals, away)),
    }
}

fn of_draw(goals: &ScoreRange, away: bool) -> RowEnds
    ensures { (cell : Cell) → IsScoreRangeOf cell is_draw goals.now
        → AreEndsOf (passing cell is_draw) away result }
{
    drawn(GoalEnds::of(goals, away), away)
}

fn at_away_wins(cell: &Cell, away: bool) -> Option<RowEnds>
    ensures { AreEndsIfAny (passing cell.now is_away_win) away result }
{
    match cell.away_wins() {
        None => None,
        Some(goals) => Some(of_away_win(&goals, away)),
    }
}

fn of_away_win(goals: &ScoreRange, away: bool) -> RowEnds
    ensures { (cell : Cell) → IsScoreRangeOf cell is_away_win goals.now
        → AreEndsOf (passing cell is_away_win) away result }
{
    let home = GoalEnds::of(goals, false);
    let visitors = GoalEnds::of(goals, true);
    if away {
        won(visitors, home, true)
    } else {
        lost(home, visitors, false)
    }
}

// The rows over the scores of which the one speaks or the other.
fn either(first: Option<RowEnds>, second: Option<RowEnds>) -> Option<RowEnds>
    ensures { (one other : Score → Bool) (away : Bool) → AreEndsIfAny one away first
        → AreEndsIfAny other away second
        → AreEndsIfAny (λ score. one score || other score) away result }
{
    match first {
        None => second,
        Some(ends) => match second {
            None => Some(ends),
            Some(more) => Some(ends.around(&more)),
        },
    }
}
