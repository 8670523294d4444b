//! What is asked of a season.

ghost use Rattle.std.specs.Prelude.{◌≡◌, ◌≤◌, ◌++◌, All, IfOk, OnOk, length};
ghost use Rattle.league_core.specs.game.Limits.{most_clubs, least_points, most_points};
ghost use Rattle.league_core.specs.game.Sheets.{IsWithinLimits};
ghost use Rattle.league_core.specs.game.Questions.{IsQuestionOf, full_question};
ghost use Rattle.answer_rows.specs.AskedQuestions.{both_questions, questions_of};
ghost use Rattle.answer_rows.specs.AskedQuestions.{questions_of_line};

use league_core::limits::{MOST_DEDUCTION, MOST_POINTS};
use league_core::{Claim, OutOfMemory, Question, Sheet};
use std::alloc::Global;

/// Line by line in the order of the sheet, and club by club, two questions with the full window:
/// whether the club can end inside the line, and then whether it can end outside.
pub fn questions(alloc: Global, sheet: &Sheet) -> Result<Vec<Question>, OutOfMemory>
    requires limits { IsWithinLimits sheet.now }
    ensures value { IfOk result (λ asked. asked.items ≡ questions_of sheet.now) }
    ensures of_sheet { IfOk result (λ asked. All (IsQuestionOf sheet.now) asked.items) }
    ensures few { IfOk result (λ asked. length asked.items ≤ 192) }
{
    let mut asked = Vec::new(alloc);
    for line in sheet.lines.as_slice() {
        push_line(&mut asked, sheet.clubs.len() as u8, *line)?;
    }
    Ok(asked)
}

// The questions about a line, for so many clubs.
fn push_line(asked: &mut Vec<Question>, clubs: u8, line: u8) -> Result<(), OutOfMemory>
    ensures { OnOk result (asked.new.items ≡ asked.old.items ++ questions_of_line clubs line) }
{
    for club in 0..clubs {
        asked.push(full_question(club, line, Claim::Inside))?;
        asked.push(full_question(club, line, Claim::Outside))?;
    }
    Ok(())
}

/// The question about a club, by its number from 0, and a line, which is how many first places it
/// asks for, with the full window, from -99 to 1,800 points.
pub fn full_question(club: u8, line: u8, claim: Claim) -> Question
    ensures { result ≡ full_question club line claim }
{
    Question {
        club,
        line,
        claim,
        low: -(MOST_DEDUCTION as i32),
        high: MOST_POINTS as i32,
    }
}
