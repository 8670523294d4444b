//! The verdicts of a season given a base.

ghost use Rattle.std.specs.Prelude.{◌≡◌, ◌<◌, IfOk, IsTrue, OnOk, length};
ghost use Rattle.league_core.specs.game.Seasons.{IsLeague};
ghost use Rattle.league_core.specs.game.Sheets.{is_line};
ghost use Rattle.league_core.specs.search.Options.{has_finish};
ghost use Rattle.cert_text.specs.Ranges.{is_in_range};
ghost use Rattle.answer_rows.specs.Items.{answer_row};
ghost use Rattle.answer_rows.specs.inside.ItemRanges.{AreInRange};
ghost use Rattle.what_if.specs.Bases.{is_base_of};
ghost use Rattle.what_if.specs.Given.{AreVerdictsGiven};
ghost use Rattle.what_if.specs.inside.GivenParts.{AddsVerdicts, IsBaseIn, IsRightGiven};

use crate::known_season::KnownSeason;
use crate::part::part_given;
use crate::season_part::InSeason;
use answer_rows::{PartKind, Verdict, Word, full_question, joined, word_of};
use branch_rules::ZoneSolver;
use league_core::{Claim, Literal, OutOfMemory, Season, Sheet, Zone};
use score_box::Played;
use std::alloc::Global;

/// The verdict of each line and club in those finishes of the season at which the literals of the
/// base are true: line by line in the order of the sheet, and for each line club by club. The
/// budget of the sheet is there for each question.
pub fn verdicts_given(
    alloc: Global,
    sheet: &Sheet,
    season: &Season,
    base: &Zone,
) -> Result<Vec<Verdict>, OutOfMemory>
    requires league { IsLeague sheet.now season.now }
    requires base { IsTrue (is_base_of sheet.now base.now.literals) }
    requires has_finish { IsTrue (has_finish sheet.now season.now base.now.literals) }
    ensures answer { IfOk result (λ found.
        AreVerdictsGiven sheet.now season.now base.now.literals found.items) }
    ensures in_range { IfOk result (λ found. AreInRange is_in_range sheet.now found.items) }
{
    let played = Played::of(alloc, sheet, season)?;
    verdicts_below(alloc, &played, base.literals.as_slice())
}

// The same, with a worker of its own.
fn verdicts_below(
    alloc: Global,
    played: &Played,
    base: &[Literal],
) -> Result<Vec<Verdict>, OutOfMemory>
    requires base { IsBaseIn played.now.sheet played.now.season base.now }
    ensures answer { IfOk result (λ found.
        AreVerdictsGiven played.now.sheet played.now.season base.now found.items) }
    ensures in_range { IfOk result (λ found. AreInRange is_in_range played.now.sheet found.items) }
{
    let mut solver = ZoneSolver::new(alloc, played)?;
    let stage = KnownSeason::new(played, Vec::new(alloc));
    verdicts_by(alloc, &stage, &mut solver, base)
}

/// The same by a worker on this season, which may have worked on other bases before.
pub(crate) fn verdicts_by(
    alloc: Global,
    stage: &KnownSeason,
    solver: &mut ZoneSolver,
    base: &[Literal],
) -> Result<Vec<Verdict>, OutOfMemory>
    requires sheet { solver.old.sheet ≡ stage.now.sheet }
    requires season { solver.old.season ≡ stage.now.season }
    requires base { IsBaseIn stage.now.sheet stage.now.season base.now }
    ensures answer { IfOk result (λ found.
        AreVerdictsGiven stage.now.sheet stage.now.season base.now found.items) }
    ensures in_range { IfOk result (λ found. AreInRange is_in_range stage.now.sheet found.items) }
    ensures same_sheet { solver.new.sheet ≡ solver.old.sheet }
    ensures same_season { solver.new.season ≡ solver.old.season }
{
    let sheet = stage.sheet();
    let mut found = Vec::new(alloc);
    for line in sheet.lines.as_slice() {
        push_line(alloc, stage, solver, base, *line, &mut found)?;
    }
    Ok(found)
}

// The verdicts about a line.
fn push_line(
    alloc: Global,
    stage: &KnownSeason,
    solver: &mut ZoneSolver,
    base: &[Literal],
    line: u8,
    found: &mut Vec<Verdict>,
) -> Result<(), OutOfMemory>
    requires sheet { solver.old.sheet ≡ stage.now.sheet }
    requires season { solver.old.season ≡ stage.now.season }
    requires base { IsBaseIn stage.now.sheet stage.now.season base.now }
    requires line { IsTrue (is_line (length stage.now.sheet.clubs) line) }
    ensures adds { OnOk result (AddsVerdicts stage.now.sheet stage.now.season base.now line
        (length stage.now.sheet.clubs) found.old.items found.new.items) }
    ensures same_sheet { solver.new.sheet ≡ solver.old.sheet }
    ensures same_season { solver.new.season ≡ solver.old.season }
{
    for club in 0..stage.sheet().clubs.len() as u8 {
        found.push(verdict_given(alloc, stage, solver, base, line, club)?)?;
    }
    Ok(())
}

// The verdict of a club and a line. If the club ends outside the line at each finish of the season,
// or inside it at each member of the base, no other question is worked on.
fn verdict_given(
    alloc: Global,
    stage: &KnownSeason,
    solver: &mut ZoneSolver,
    base: &[Literal],
    line: u8,
    club: u8,
) -> Result<Verdict, OutOfMemory>
    requires sheet { solver.old.sheet ≡ stage.now.sheet }
    requires season { solver.old.season ≡ stage.now.season }
    requires base { IsBaseIn stage.now.sheet stage.now.season base.now }
    requires line { IsTrue (is_line (length stage.now.sheet.clubs) line) }
    requires club { club < length stage.now.sheet.clubs }
    ensures about { IfOk result (λ verdict. answer_row verdict
        ≡ record { line = line; club = club }) }
    ensures right { IfOk result (IsRightGiven stage.now.sheet stage.now.season base.now) }
    ensures same_sheet { solver.new.sheet ≡ solver.old.sheet }
    ensures same_season { solver.new.season ≡ solver.old.season }
{
    let question = full_question(club, line, Claim::Inside);
    if let Some(InSeason::Nowhere) = stage.known(&question) {
        let word = Word::Lost;
        let proof = Vec::new(alloc);
        return Ok(Verdict {
            line,
            club,
            word,
            proof,
        });
    }
    let other = full_question(club, line, Claim::Outside);
    let outside = part_given(alloc, stage, solver, &other, base)?;
    if let PartKind::Refuted = outside.kind {
        let word = Word::Clinched;
        return Ok(Verdict {
            line,
            club,
            word,
            proof: outside.lines,
        });
    }
    let inside = part_given(alloc, stage, solver, &question, base)?;
    let word = word_of(inside.kind, outside.kind);
    let proof = joined(word, inside, outside)?;
    Ok(Verdict {
        line,
        club,
        word,
        proof,
    })
}
