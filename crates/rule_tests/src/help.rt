//! Boxes and pieces of leagues that are read from text.

ghost use Rattle.std.specs.Prelude.{◌≡◌, ◌<◌, IfOk, OnOk, IsTrue, length};
ghost use Rattle.league_core.specs.declared.sheet.Sheet.{Sheet};
ghost use Rattle.league_core.specs.search.Options.{has_finish};
ghost use Rattle.league_core.specs.game.Questions.{IsQuestionOf};
ghost use Rattle.league_core.specs.game.Seasons.{IsLeague};
ghost use Rattle.league_core.specs.search.Zones.{is_zone_of, is_test_of, is_of_rival, IsZoneFor};
ghost use Rattle.league_core.specs.search.Zones.{marked_before, marked_after};

use branch_rules::{choose, choose_seeing, work, work_with};
use flow_bound::FlowKeep;
use league_core::{Claim, ClubSet, Listing, Literal, OutOfMemory, Question, Sheet, Test, Zone};
use reason_core::{Done, Piece};
use sample_leagues::{Sample, sample_of};
use score_box::{Played, ZoneBox};
use std::alloc::Global;
use std::process::Abort;
use std::test::Fail;

/// A question of the first club about the first place.
pub fn asked(claim: Claim, low: i32, high: i32) -> Question {
    Question {
        club: 0,
        line: 1,
        claim,
        low,
        high,
    }
}

/// The rival is to rank before the question's club.
pub fn ahead(club: u8) -> Literal {
    let test = Test::Rival { club };
    Literal { test, yes: true }
}

/// The rival is not to.
pub fn behind(club: u8) -> Literal {
    let test = Test::Rival { club };
    Literal { test, yes: false }
}

/// Asserts what is chosen in a zone of a league, and that it is the same for a box of the league
/// read once more.
pub fn check(
    rt: &impl Abort,
    alloc: Global,
    text: &[u8],
    question: &Question,
    zone: &[Literal],
    wanted: Test,
) -> Result<(), Fail> {
    let literal = chosen(rt, alloc, text, question, zone, ClubSet::empty())?;
    let again = chosen(rt, alloc, text, question, zone, ClubSet::empty())?;
    assert_eq!(rt; literal.test, wanted);
    assert!(rt; literal.yes && literal == again);
    Ok(())
}

fn choice_in(rt: &impl Abort, zone_box: &ZoneBox, question: &Question, barred: ClubSet) -> Literal {
    assert!(rt; (question.club as usize) < zone_box.sheet().clubs.len());
    assert!(rt; zone_box.has_finish());
    assert!(rt; !zone_box.is_single());
    if barred.is_empty() {
        choose(zone_box, question)
    } else {
        choose_seeing(zone_box, question, barred).literal
    }
}

fn chosen_after(
    rt: &impl Abort,
    zone_box: &mut ZoneBox,
    question: &Question,
    zone: &[Literal],
    barred: ClubSet,
) -> Result<Literal, Fail> {
    for literal in zone {
        go_on(rt, zone_box, *literal)?;
    }
    Ok(choice_in(rt, zone_box, question, barred))
}

fn chosen_over(
    rt: &impl Abort,
    alloc: Global,
    played: &Played,
    question: &Question,
    zone: &[Literal],
    barred: ClubSet,
) -> Result<Literal, Fail> {
    let mut zone_box = ZoneBox::over(alloc, played, &[])?;
    chosen_after(rt, &mut zone_box, question, zone, barred)
}

fn chosen_in(
    rt: &impl Abort,
    alloc: Global,
    sample: &Sample,
    question: &Question,
    zone: &[Literal],
    barred: ClubSet,
) -> Result<Literal, Fail>
    requires { IsLeague sample.now.sheet sample.now.season }
{
    let played = Played::of(alloc, &sample.sheet, &sample.season)?;
    chosen_over(rt, alloc, &played, question, zone, barred)
}

/// What is chosen in a zone of a league if these rivals are known not to end level with the club.
pub fn chosen(
    rt: &impl Abort,
    alloc: Global,
    text: &[u8],
    question: &Question,
    zone: &[Literal],
    barred: ClubSet,
) -> Result<Literal, Fail> {
    let sample = sample_of(alloc, text).ok_or("no league")?;
    chosen_in(rt, alloc, &sample, question, zone, barred)
}

/// Puts a literal at the end of the box's zone.
pub fn go_on(rt: &impl Abort, zone_box: &mut ZoneBox, literal: Literal) -> Result<(), OutOfMemory> {
    let fixtures = zone_box.sheet().fixtures.len();
    let clubs = zone_box.sheet().clubs.len();
    assert!(rt; is_below(&literal.test, fixtures, clubs));
    zone_box.cut(literal)
}

// Whether a test is of one of so many fixtures or clubs.
fn is_below(test: &Test, fixtures: usize, clubs: usize) -> bool
    ensures { (sheet : Sheet) → length sheet.fixtures ≡ fixtures → length sheet.clubs ≡ clubs
        → result ≡ is_test_of sheet test.now }
{
    match test {
        Test::Home { fixture }
        | Test::Draw { fixture }
        | Test::HomeMost { fixture, .. }
        | Test::AwayMost { fixture, .. } => (*fixture as usize) < fixtures,
        Test::Rival { club } => (*club as usize) < clubs,
    }
}

/// Whether the literals name fixtures and clubs of the sheet alone.
pub fn is_of_sheet(sheet: &Sheet, literals: &[Literal]) -> bool
    ensures { result ≡ is_zone_of sheet.now literals.now }
{
    let fixtures = sheet.fixtures.len();
    let clubs = sheet.clubs.len();
    literals
        .iter()
        .all(|literal| is_below(&literal.test, fixtures, clubs))
}

fn is_rival(test: &Test, club: u8) -> bool
    ensures { result ≡ is_of_rival club test.now }
{
    match test {
        Test::Rival { club: rival } => *rival == club,
        Test::Home { .. } | Test::Draw { .. } | Test::HomeMost { .. } | Test::AwayMost { .. } => {
            false
        }
    }
}

fn marks_before(literals: &[Literal], club: u8) -> bool
    ensures { result ≡ marked_before literals.now club }
{
    literals
        .iter()
        .any(|literal| is_rival(&literal.test, club) && literal.yes)
}

fn marks_after(literals: &[Literal], club: u8) -> bool
    ensures { result ≡ marked_after literals.now club }
{
    literals
        .iter()
        .any(|literal| is_rival(&literal.test, club) && !literal.yes)
}

// Whether the literals are a zone for the question.
fn is_zone_for(sheet: &Sheet, question: &Question, literals: &[Literal]) -> bool
    ensures { IsTrue result → IsZoneFor sheet.now question.now literals.now }
{
    is_of_sheet(sheet, literals)
        && !marks_before(literals, question.club)
        && !marks_after(literals, question.club)
}

/// The question is about a club of the sheet, and a line that leaves clubs on both its sides.
pub fn is_question_of(sheet: &Sheet, question: &Question) -> bool
    ensures { IsTrue result → IsQuestionOf sheet.now question.now }
{
    let clubs = sheet.clubs.len();
    (question.club as usize) < clubs && 1 <= question.line && (question.line as usize) < clubs
}

fn has_finish_in(alloc: Global, sample: &Sample, zone: &Zone) -> Result<bool, Fail>
    requires league { IsLeague sample.now.sheet sample.now.season }
    requires zone { IsTrue (is_zone_of sample.now.sheet zone.now.literals) }
    ensures { IfOk result (λ found.
        found ≡ has_finish sample.now.sheet sample.now.season zone.now.literals) }
{
    let zone_box = ZoneBox::of(alloc, &sample.sheet, &sample.season, zone)?;
    Ok(zone_box.has_finish())
}

fn piece_of(
    alloc: Global,
    sample: &Sample,
    question: &Question,
    literals: &[Literal],
) -> Result<Piece, Fail>
    ensures { IfOk result (λ piece. piece.season ≡ sample.now.season) }
{
    let season = sample.season.copy(alloc)?;
    let zone = Zone {
        literals: Listing::from_vec(literals.to_vec(alloc)?),
    };
    Ok(Piece {
        season,
        question: *question,
        zone,
    })
}

// Asserts that the piece is one of the league, and that its zone has a finish.
fn check_piece(rt: &impl Abort, alloc: Global, sample: &Sample, piece: &Piece) -> Result<(), Fail>
    requires { IsLeague sample.now.sheet sample.now.season }
    ensures question { OnOk result (IsQuestionOf sample.now.sheet piece.now.question) }
    ensures zone { OnOk result
        (IsZoneFor sample.now.sheet piece.now.question piece.now.zone.literals) }
    ensures has_finish { OnOk result (IsTrue
        (has_finish sample.now.sheet sample.now.season piece.now.zone.literals)) }
{
    let literals = piece.zone.literals.as_slice();
    assert!(rt; is_question_of(&sample.sheet, &piece.question));
    assert!(rt; is_zone_for(&sample.sheet, &piece.question, literals));
    assert!(rt; has_finish_in(alloc, sample, &piece.zone)?);
    Ok(())
}

/// What `work` finds in the piece of this question and zone.
pub fn worked(
    rt: &impl Abort,
    alloc: Global,
    sample: &Sample,
    question: &Question,
    literals: &[Literal],
) -> Result<Done, Fail>
    requires { IsLeague sample.now.sheet sample.now.season }
{
    let piece = piece_of(alloc, sample, question, literals)?;
    check_piece(rt, alloc, sample, &piece)?;
    Ok(work(alloc, &sample.sheet, &piece)?)
}

/// What `work_with` finds there, from what the keep holds.
pub fn worked_with(
    rt: &impl Abort,
    alloc: Global,
    sample: &Sample,
    question: &Question,
    literals: &[Literal],
    keep: &mut FlowKeep,
) -> Result<Done, Fail>
    requires { IsLeague sample.now.sheet sample.now.season }
{
    let piece = piece_of(alloc, sample, question, literals)?;
    check_piece(rt, alloc, sample, &piece)?;
    Ok(work_with(alloc, &sample.sheet, &piece, keep)?)
}
