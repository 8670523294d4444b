//! The cells of a season, and the fixture that a literal is of.

ghost use Rattle.std.specs.Prelude.{◌≡◌, ℕ, ◌<◌, ◌==◌, Bool, true, false, IfOk, IfSome, IfNone};
ghost use Rattle.std.specs.Prelude.{MatchOption, List, [], length, Option, Some, None};
ghost use Rattle.std.specs.List.{All};
ghost use Rattle.league_core.specs.declared.season.Score.{Score};
ghost use Rattle.league_core.specs.declared.zone.Literal.{Literal};
ghost use Rattle.league_core.specs.game.Limits.{set_width};
ghost use Rattle.league_core.specs.game.Finishes.{may_end};
ghost use Rattle.league_core.specs.search.Zones.{is_on, is_of_score};
ghost use Rattle.league_core.specs.search.Options.{options_from};
ghost use Rattle.score_box.specs.inside.Cells.{allows, IsExactCell};
ghost use Rattle.score_box.specs.inside.Boxes.{AreCellsOf, IsTestBelow};

use crate::cell::Cell;
use league_core::{OutOfMemory, Score, Test};
use std::alloc::Global;

/// The cells of a season in which no literal is asked for.
pub fn season_cells(
    alloc: Global,
    scores: &[Option<Score>],
    goal_limit: u8,
) -> Result<Vec<Cell>, OutOfMemory>
    ensures { IfOk result (λ cells.
        AreCellsOf cells.items (options_from goal_limit [] 0 scores.now)) }
{
    let mut cells = Vec::new(alloc);
    for score in scores {
        cells.push(first_cell(*score, goal_limit))?;
    }
    Ok(cells)
}

// A played fixture has its score, another all scores up to the limit.
fn first_cell(played: Option<Score>, goal_limit: u8) -> Cell
    ensures scores { (score : Score)
        → allows result score ≡ may_end goal_limit played (Some score) }
    ensures exact { IsExactCell result }
{
    match played {
        Some(score) => Cell::played(score),
        None => open_cell(goal_limit),
    }
}

fn open_cell(goal_limit: u8) -> Cell
    ensures scores { (score : Score) → allows result score ≡ may_end goal_limit None (Some score) }
    ensures exact { IsExactCell result }
{
    let mut cell = Cell::any(goal_limit);
    cell.mend();
    cell
}

/// The fixture whose score a test looks at.
pub fn fixture_of(test: &Test) -> Option<u16>
    ensures some { IfSome result (λ fixture. (is_of_score test.now ≡ true)
        × ((number : ℕ) → is_on number test.now ≡ (fixture == number))
        × ((fixtures : ℕ) → IsTestBelow fixtures set_width test.now → fixture < fixtures)) }
    ensures none { IfNone result ((number : ℕ) → is_on number test.now ≡ false) }
{
    match test {
        Test::Home { fixture }
        | Test::Draw { fixture }
        | Test::HomeMost { fixture, .. }
        | Test::AwayMost { fixture, .. } => Some(*fixture),
        Test::Rival { .. } => None,
    }
}
