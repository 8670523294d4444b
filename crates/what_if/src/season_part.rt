//! What is known of the questions about a season, before anything is asked of a match.

ghost use Rattle.std.specs.Prelude.{◌≡◌, ◌<◌, IfOk, IsTrue, OnOk, length};
ghost use Rattle.league_core.specs.declared.sheet.Sheet.{Sheet};
ghost use Rattle.league_core.specs.game.Results.{Results};
ghost use Rattle.league_core.specs.game.Questions.{IsQuestionOf};
ghost use Rattle.league_core.specs.game.Sheets.{is_line};
ghost use Rattle.what_if.specs.inside.SeasonParts.{AreTrueParts, IsInSeason};

use crate::hints::Hints;
use crate::task::solve_given;
use answer_rows::full_question;
use branch_rules::ZoneSolver;
use depth_search::SearchEnd;
use league_core::{Claim, OutOfMemory, Question};
use score_box::Played;
use std::alloc::Global;
use tree_arena::Example;

/// What is known of a question in the season.
#[derive(Drop)]
pub(crate) enum InSeason {
    /// It has no example, so it has none in any base.
    Nowhere,
    /// This is an example.
    Met(Example),
    /// It was not worked on, or in vain.
    Open,
}

/// A question, and what is known of it in the season.
#[derive(Drop)]
pub(crate) struct SeasonPart {
    pub question: Question,
    pub known: InSeason,
}

/// What is known after some work on each question: line by line and club by club, `Outside` before
/// `Inside`.
pub(crate) fn season_parts(
    alloc: Global,
    played: &Played,
    solver: &mut ZoneSolver,
) -> Result<Vec<SeasonPart>, OutOfMemory>
    requires sheet { solver.old.sheet ≡ played.now.sheet }
    requires season { solver.old.season ≡ played.now.season }
    ensures parts { IfOk result (λ parts.
        AreTrueParts played.now.sheet played.now.season parts.items) }
    ensures same_sheet { solver.new.sheet ≡ solver.old.sheet }
    ensures same_season { solver.new.season ≡ solver.old.season }
{
    let sheet = played.sheet();
    let mut parts = Vec::new(alloc);
    for line in sheet.lines.as_slice() {
        push_line(alloc, played, solver, *line, &mut parts)?;
    }
    Ok(parts)
}

// The questions about a line.
fn push_line(
    alloc: Global,
    played: &Played,
    solver: &mut ZoneSolver,
    line: u8,
    parts: &mut Vec<SeasonPart>,
) -> Result<(), OutOfMemory>
    requires sheet { solver.old.sheet ≡ played.now.sheet }
    requires season { solver.old.season ≡ played.now.season }
    requires line { IsTrue (is_line (length played.now.sheet.clubs) line) }
    requires parts { AreTrueParts played.now.sheet played.now.season parts.old.items }
    ensures parts { OnOk result
        (AreTrueParts played.now.sheet played.now.season parts.new.items) }
    ensures same_sheet { solver.new.sheet ≡ solver.old.sheet }
    ensures same_season { solver.new.season ≡ solver.old.season }
{
    for club in 0..played.sheet().clubs.len() as u8 {
        push_row(alloc, played, solver, line, club, parts)?;
    }
    Ok(())
}

// Both questions about a club and a line. If the club ends inside the line at each finish, the
// other one is not worked on.
fn push_row(
    alloc: Global,
    played: &Played,
    solver: &mut ZoneSolver,
    line: u8,
    club: u8,
    parts: &mut Vec<SeasonPart>,
) -> Result<(), OutOfMemory>
    requires sheet { solver.old.sheet ≡ played.now.sheet }
    requires season { solver.old.season ≡ played.now.season }
    requires line { IsTrue (is_line (length played.now.sheet.clubs) line) }
    requires club { club < length played.now.sheet.clubs }
    requires parts { AreTrueParts played.now.sheet played.now.season parts.old.items }
    ensures parts { OnOk result
        (AreTrueParts played.now.sheet played.now.season parts.new.items) }
    ensures same_sheet { solver.new.sheet ≡ solver.old.sheet }
    ensures same_season { solver.new.season ≡ solver.old.season }
{
    let outside = full_question(club, line, Claim::Outside);
    let is_clinched = push_worked(alloc, played, solver, &outside, parts)?;
    let inside = full_question(club, line, Claim::Inside);
    if is_clinched {
        push_part(parts, inside, InSeason::Open)?;
    } else {
        push_worked(alloc, played, solver, &inside, parts)?;
    }
    Ok(())
}

// A question with what some work on it brings; gives whether it has no example.
fn push_worked(
    alloc: Global,
    played: &Played,
    solver: &mut ZoneSolver,
    question: &Question,
    parts: &mut Vec<SeasonPart>,
) -> Result<bool, OutOfMemory>
    requires sheet { solver.old.sheet ≡ played.now.sheet }
    requires season { solver.old.season ≡ played.now.season }
    requires of_sheet { IsQuestionOf played.now.sheet question.now }
    requires parts { AreTrueParts played.now.sheet played.now.season parts.old.items }
    ensures parts { OnOk result
        (AreTrueParts played.now.sheet played.now.season parts.new.items) }
    ensures same_sheet { solver.new.sheet ≡ solver.old.sheet }
    ensures same_season { solver.new.season ≡ solver.old.season }
{
    let known = known_of(alloc, played, solver, question)?;
    let is_nowhere = matches!(&known, InSeason::Nowhere);
    push_part(parts, *question, known)?;
    Ok(is_nowhere)
}

// A question with what is known of it.
fn push_part(
    parts: &mut Vec<SeasonPart>,
    question: Question,
    known: InSeason,
) -> Result<(), OutOfMemory>
    ensures { OnOk result ((sheet : Sheet) (season : Results)
        → IsInSeason sheet season question known → AreTrueParts sheet season parts.old.items
        → AreTrueParts sheet season parts.new.items) }
{
    parts.push(SeasonPart { question, known })?;
    Ok(())
}

// What some work on a question brings.
fn known_of(
    alloc: Global,
    played: &Played,
    solver: &mut ZoneSolver,
    question: &Question,
) -> Result<InSeason, OutOfMemory>
    requires sheet { solver.old.sheet ≡ played.now.sheet }
    requires season { solver.old.season ≡ played.now.season }
    requires of_sheet { IsQuestionOf played.now.sheet question.now }
    ensures known { IfOk result
        (IsInSeason played.now.sheet played.now.season question.now) }
    ensures same_sheet { solver.new.sheet ≡ solver.old.sheet }
    ensures same_season { solver.new.season ≡ solver.old.season }
{
    let season = played.season();
    let _scores = season.scores();
    let hints = Hints {
        played,
        example: None,
    };
    let units = played.sheet().budget / 8;
    match solve_given(alloc, solver, question, &[], &hints, units)? {
        SearchEnd::Won(example) => Ok(InSeason::Met(example)),
        SearchEnd::Refuted(_) => Ok(InSeason::Nowhere),
        SearchEnd::Spent(_) => Ok(InSeason::Open),
    }
}
