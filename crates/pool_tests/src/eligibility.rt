//! Whether a piece can be worked on, and what was found there.

ghost use Rattle.std.specs.Prelude.{◌≡◌, All, IfOk, IsTrue, length};
ghost use Rattle.league_core.specs.declared.sheet.Sheet.{Sheet};
ghost use Rattle.league_core.specs.search.Options.{has_finish};
ghost use Rattle.league_core.specs.game.Questions.{IsQuestionOf};
ghost use Rattle.league_core.specs.game.Seasons.{IsLeague, IsSeasonOf};
ghost use Rattle.league_core.specs.game.Sheets.{IsWithinLimits};
ghost use Rattle.league_core.specs.search.Zones.{is_zone_of, is_test_of, is_of_rival, IsZoneFor};
ghost use Rattle.league_core.specs.search.Zones.{marked_before, marked_after};
ghost use Rattle.reason_core.specs.inside.Dones.{IsFor, IsTrueDone};

use branch_rules::work;
use league_core::{Literal, OutOfMemory, Question, Season, Sheet, Test};
use reason_core::{Done, Piece};
use score_box::ZoneBox;
use std::alloc::Global;

/// What is found in a piece; nothing if it is none of the sheet.
pub fn done_of(alloc: Global, sheet: &Sheet, piece: &Piece) -> Result<Done, OutOfMemory>
    requires { IsWithinLimits sheet.now }
    ensures is_for { IfOk result (λ done. IsFor done piece.now) }
    ensures sound { IfOk result (IsTrueDone sheet.now) }
{
    if !is_of_sheet(sheet, piece) || !has_finish(alloc, sheet, piece)? {
        return Ok(Done::Undone);
    }
    work(alloc, sheet, piece)
}

fn has_finish(alloc: Global, sheet: &Sheet, piece: &Piece) -> Result<bool, OutOfMemory>
    requires league { IsLeague sheet.now piece.now.season }
    requires zone { IsZoneFor sheet.now piece.now.question piece.now.zone.literals }
    ensures { IfOk result
        (λ has. has ≡ has_finish sheet.now piece.now.season piece.now.zone.literals) }
{
    let zone_box = ZoneBox::of(alloc, sheet, &piece.season, &piece.zone)?;
    Ok(zone_box.has_finish())
}

fn is_of_sheet(sheet: &Sheet, piece: &Piece) -> bool
    requires { IsWithinLimits sheet.now }
    ensures league { IsTrue result → IsLeague sheet.now piece.now.season }
    ensures question { IsTrue result → IsQuestionOf sheet.now piece.now.question }
    ensures zone { IsTrue result
        → IsZoneFor sheet.now piece.now.question piece.now.zone.literals }
{
    is_season_of(sheet, &piece.season)
        && is_question_of(sheet, &piece.question)
        && is_zone_for(sheet, &piece.question, piece.zone.literals.as_slice())
}

pub fn is_season_of(sheet: &Sheet, season: &Season) -> bool
    ensures { IsTrue result → IsSeasonOf sheet.now season.now }
{
    season.scores().len() == sheet.fixtures.len() && season.deductions().len() == sheet.clubs.len()
}

/// Whether the questions name clubs and lines of the sheet.
pub fn are_questions_of(sheet: &Sheet, questions: &[Question]) -> bool
    ensures { IsTrue result → All (IsQuestionOf sheet.now) questions.now }
{
    let clubs = sheet.clubs.len();
    questions
        .iter()
        .all(|question| is_question_among(question, clubs))
}

// Whether a question is one about so many clubs.
fn is_question_among(question: &Question, clubs: usize) -> bool
    ensures { (sheet : Sheet) → length sheet.clubs ≡ clubs → IsTrue result
        → IsQuestionOf sheet question.now }
{
    (question.club as usize) < clubs && 1 <= question.line && (question.line as usize) < clubs
}

fn is_question_of(sheet: &Sheet, question: &Question) -> bool
    ensures { IsTrue result → IsQuestionOf sheet.now question.now }
{
    is_question_among(question, sheet.clubs.len())
}

fn is_zone_for(sheet: &Sheet, question: &Question, literals: &[Literal]) -> bool
    ensures { IsTrue result → IsZoneFor sheet.now question.now literals.now }
{
    is_zone_of(sheet, literals)
        && !marks_before(literals, question.club)
        && !marks_after(literals, question.club)
}

/// Whether the literals name fixtures and clubs of the sheet alone.
pub fn is_zone_of(sheet: &Sheet, literals: &[Literal]) -> bool
    ensures { result ≡ is_zone_of sheet.now literals.now }
{
    let fixtures = sheet.fixtures.len();
    let clubs = sheet.clubs.len();
    literals
        .iter()
        .all(|literal| is_below(&literal.test, fixtures, clubs))
}

// Whether a test is of one of so many fixtures or clubs.
fn is_below(test: &Test, fixtures: usize, clubs: usize) -> bool
    ensures { (sheet : Sheet) → length sheet.fixtures ≡ fixtures → length sheet.clubs ≡ clubs
        → result ≡ is_test_of sheet test.now }
{
    match test {
        Test::Home { fixture }
        | Test::Draw { fixture }
        | Test::HomeMost { fixture, .. }
        | Test::AwayMost { fixture, .. } => (*fixture as usize) < fixtures,
        Test::Rival { club } => (*club as usize) < clubs,
    }
}

fn is_rival(test: &Test, club: u8) -> bool
    ensures { result ≡ is_of_rival club test.now }
{
    match test {
        Test::Rival { club: rival } => *rival == club,
        Test::Home { .. } | Test::Draw { .. } | Test::HomeMost { .. } | Test::AwayMost { .. } => {
            false
        }
    }
}

fn marks_before(literals: &[Literal], club: u8) -> bool
    ensures { result ≡ marked_before literals.now club }
{
    literals
        .iter()
        .any(|literal| is_rival(&literal.test, club) && literal.yes)
}

fn marks_after(literals: &[Literal], club: u8) -> bool
    ensures { result ≡ marked_after literals.now club }
{
    literals
        .iter()
        .any(|literal| is_rival(&literal.test, club) && !literal.yes)
}
