//! A question worked on from its root, with the whole budget.

ghost use Rattle.std.specs.Prelude.{◌≡◌, [], ◌∷◌, IfOk, length};
ghost use Rattle.league_core.specs.declared.question.Question.{Question};
ghost use Rattle.league_core.specs.game.Seasons.{IsLeague};
ghost use Rattle.league_core.specs.game.Questions.{IsQuestionOf};
ghost use Rattle.verdict_run.specs.inside.Working.{AreSettled, AreAllNew};
ghost use Rattle.verdict_run.specs.inside.Solving.{IsSolved};

use crate::reporting::report_season;
use crate::turns::finish;
use answer_rows::Solved;
use branch_pool::{Pool, QuestionState};
use league_core::{OutOfMemory, Question, Season, Sheet};
use std::alloc::Global;
use tree_arena::Example;

/// Works on one question of a season from its root on, until it is known or the budget is spent.
pub fn solve_fresh(
    alloc: Global,
    sheet: &Sheet,
    season: &Season,
    question: &Question,
) -> Result<Solved, OutOfMemory>
    requires league { IsLeague sheet.now season.now }
    requires of_sheet { IsQuestionOf sheet.now question.now }
    ensures { IfOk result (IsSolved sheet.now season.now question.now) }
{
    let asked = Vec::from_slice(alloc, &[*question])?;
    let sheet = sheet.copy(alloc)?;
    let mut pool = Pool::begin(alloc, sheet, asked)?;
    report_season(&mut pool, season)?;
    let pool = finish(alloc, pool)?;
    Ok(kept_of(pool))
}

// What is kept of the one question of a pool.
fn kept_of(pool: Pool) -> Solved
    requires one { length pool.questions ≡ 1 }
    requires settled { AreSettled pool }
    requires all_new { AreAllNew pool }
    ensures { (question : Question) → pool.questions ≡ question ∷ []
        → IsSolved pool.sheet pool.season question result }
{
    pool.recall_invariant();
    let mut seats = pool.into_seats();
    let Some(seat) = seats.pop() else {
        unreachable!()
    };
    let QuestionState { tree, example, .. } = seat;
    match example {
        Some(Example { finish, lots }) => Solved::Won(finish, lots),
        None if tree.is_refuted() => Solved::Refuted(tree),
        None => Solved::Spent(tree),
    }
}
