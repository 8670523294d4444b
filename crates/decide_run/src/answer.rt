//! The verdicts of a season, decided with near reasons.

ghost use Rattle.std.specs.Prelude.{◌≡◌, ◌<◌, IfOk, IsTrue, OnOk, length};
ghost use Rattle.league_core.specs.game.Results.{are_results};
ghost use Rattle.league_core.specs.game.Seasons.{IsLeague};
ghost use Rattle.league_core.specs.game.Sheets.{is_line};
ghost use Rattle.wide_lines.specs.WideTexts.{is_wide_in_range};
ghost use Rattle.answer_rows.specs.Items.{answer_row};
ghost use Rattle.answer_rows.specs.inside.ItemRanges.{AreInRange};
ghost use Rattle.answer_rows.specs.inside.RowItems.{AddsAbout};
ghost use Rattle.decide_run.specs.inside.AllDecided.{AreAllDecided};
ghost use Rattle.decide_run.specs.inside.WideParts.{IsRightDecided};

use crate::part::part_of;
use crate::solver::WideSolver;
use answer_rows::{PartKind, Verdict, Word, full_question, joined, word_of};
use league_core::{Claim, OutOfMemory, Season, Sheet};
use score_box::Played;
use std::alloc::Global;
use wide_lines::WideLine;

/// What is decided of each line and club: line by line in the order of the sheet, and for each line
/// club by club. The budget of the sheet is there for each question.
pub fn decide(
    alloc: Global,
    sheet: &Sheet,
    season: &Season,
) -> Result<Vec<Verdict<WideLine>>, OutOfMemory>
    requires { IsLeague sheet.now season.now }
    ensures answer { IfOk result (λ found. AreAllDecided sheet.now season.now found.items) }
    ensures in_range { IfOk result (λ found. AreInRange is_wide_in_range sheet.now found.items) }
{
    let _scores = season.scores();
    let played = Played::of(alloc, sheet, season)?;
    decide_by(alloc, &played)
}

// The same, with the tables of the season.
fn decide_by(alloc: Global, played: &Played) -> Result<Vec<Verdict<WideLine>>, OutOfMemory>
    requires { IsTrue (are_results played.now.season) }
    ensures answer { IfOk result (λ found.
        AreAllDecided played.now.sheet played.now.season found.items) }
    ensures in_range { IfOk result
        (λ found. AreInRange is_wide_in_range played.now.sheet found.items) }
{
    let mut solver = WideSolver::new(alloc, played)?;
    decide_lines(alloc, played, &mut solver)
}

// What is decided about each line.
fn decide_lines(
    alloc: Global,
    played: &Played,
    solver: &mut WideSolver,
) -> Result<Vec<Verdict<WideLine>>, OutOfMemory>
    requires sheet { solver.old.sheet ≡ played.now.sheet }
    requires season { solver.old.season ≡ played.now.season }
    requires results { IsTrue (are_results played.now.season) }
    ensures answer { IfOk result (λ found.
        AreAllDecided played.now.sheet played.now.season found.items) }
    ensures in_range { IfOk result
        (λ found. AreInRange is_wide_in_range played.now.sheet found.items) }
{
    let mut found = Vec::new(alloc);
    for line in played.sheet().lines.as_slice() {
        push_line(alloc, played, solver, *line, &mut found)?;
    }
    Ok(found)
}

// What is decided about a line.
fn push_line(
    alloc: Global,
    played: &Played,
    solver: &mut WideSolver,
    line: u8,
    found: &mut Vec<Verdict<WideLine>>,
) -> Result<(), OutOfMemory>
    requires sheet { solver.old.sheet ≡ played.now.sheet }
    requires season { solver.old.season ≡ played.now.season }
    requires results { IsTrue (are_results played.now.season) }
    requires line { IsTrue (is_line (length played.now.sheet.clubs) line) }
    ensures adds { OnOk result (AddsAbout answer_row
        (IsRightDecided played.now.sheet played.now.season) line (length played.now.sheet.clubs)
        found.old.items found.new.items) }
    ensures same_sheet { solver.new.sheet ≡ solver.old.sheet }
    ensures same_season { solver.new.season ≡ solver.old.season }
{
    for club in 0..played.sheet().clubs.len() as u8 {
        found.push(decide_club(alloc, played, solver, line, club)?)?;
    }
    Ok(())
}

// What is decided of a club and a line. If the club ends inside the line at each finish, the other
// question is not worked on.
fn decide_club(
    alloc: Global,
    played: &Played,
    solver: &mut WideSolver,
    line: u8,
    club: u8,
) -> Result<Verdict<WideLine>, OutOfMemory>
    requires sheet { solver.old.sheet ≡ played.now.sheet }
    requires season { solver.old.season ≡ played.now.season }
    requires results { IsTrue (are_results played.now.season) }
    requires line { IsTrue (is_line (length played.now.sheet.clubs) line) }
    requires club { club < length played.now.sheet.clubs }
    ensures about { IfOk result (λ found. answer_row found
        ≡ record { line = line; club = club }) }
    ensures right { IfOk result (IsRightDecided played.now.sheet played.now.season) }
    ensures same_sheet { solver.new.sheet ≡ solver.old.sheet }
    ensures same_season { solver.new.season ≡ solver.old.season }
{
    let other = full_question(club, line, Claim::Outside);
    let outside = part_of(alloc, played, solver, &other)?;
    if let PartKind::Refuted = outside.kind {
        let word = Word::Clinched;
        return Ok(Verdict {
            line,
            club,
            word,
            proof: outside.lines,
        });
    }
    let question = full_question(club, line, Claim::Inside);
    let inside = part_of(alloc, played, solver, &question)?;
    let word = word_of(inside.kind, outside.kind);
    let proof = joined(word, inside, outside)?;
    Ok(Verdict {
        line,
        club,
        word,
        proof,
    })
}
