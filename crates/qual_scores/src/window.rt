//! One window question, and what it says of the number that is sought.

ghost use Rattle.std.specs.Prelude.{◌≡◌, IfOk};
ghost use Rattle.league_core.specs.game.Seasons.{IsLeague};
ghost use Rattle.league_core.specs.game.Questions.{IsQuestionOf, full_question};
ghost use Rattle.qual_scores.specs.inside.Searching.{MayBeAsked, IsWindowAnswer, window_answer};
ghost use Rattle.qual_scores.specs.inside.Searching.{question_sought};

use answer_rows::{Solved, window_lines};
use cert_text::ProofLine;
use league_core::limits::{MOST_DEDUCTION, MOST_POINTS};
use league_core::{Claim, OutOfMemory, Question, Season, Sheet};
use std::alloc::Global;
use verdict_run::solve_fresh;

/// The number that is sought: for `Inside` the possible score, for `Outside` the guaranteed one.
#[derive(Clone, Copy)]
pub struct ScoreQuery {
    pub club: u8,
    pub line: u8,
    pub claim: Claim,
}

/// What a window question says of the number sought.
#[derive(Drop)]
pub enum WindowAnswer {
    /// It is not above these points.
    NotAbove,
    /// It is above them, or there is none.
    Above,
    /// The budget was spent on this tree, which stands under its head.
    Spent(Vec<ProofLine>),
}

/// Asks the window question of the number sought at some points.
pub fn ask_window(
    alloc: Global,
    sheet: &Sheet,
    season: &Season,
    sought: ScoreQuery,
    points: i32,
) -> Result<WindowAnswer, OutOfMemory>
    requires league { IsLeague sheet.now season.now }
    requires of_sheet { IsQuestionOf sheet.now
        (full_question sought.club sought.line sought.claim) }
    requires in_window { MayBeAsked sought.claim points }
    ensures { IfOk result (IsWindowAnswer sheet.now season.now sought points) }
{
    let _results = season.deductions();
    let question = question_sought(sought, points);
    match solve_fresh(alloc, sheet, season, &question)? {
        Solved::Won(_, _) => Ok(window_answer(sought.claim, true)),
        Solved::Refuted(_) => Ok(window_answer(sought.claim, false)),
        Solved::Spent(tree) => Ok(WindowAnswer::Spent(window_lines(alloc, &question, &tree)?)),
    }
}

// The window question of the number sought.
fn question_sought(sought: ScoreQuery, points: i32) -> Question
    ensures { result ≡ question_sought sought points }
{
    let ScoreQuery { club, line, claim } = sought;
    let (low, high) = match claim {
        Claim::Inside => (-(MOST_DEDUCTION as i32), points),
        Claim::Outside => (points, MOST_POINTS as i32),
    };
    Question {
        club,
        line,
        claim,
        low,
        high,
    }
}

// What the window question says, by whether it has an example.
fn window_answer(claim: Claim, has_example: bool) -> WindowAnswer
    ensures { result ≡ window_answer claim has_example }
{
    match (claim, has_example) {
        (Claim::Inside, true) | (Claim::Outside, false) => WindowAnswer::NotAbove,
        (Claim::Inside, false) | (Claim::Outside, true) => WindowAnswer::Above,
    }
}
