//! Calls of the checker, worked by hand: the one match is drawn 0:0, so the fixed rank decides, and
//! the reason holds by which it does. A whole input is a row of the program.

ghost use Rattle.std.specs.Prelude.{IsTrue};
ghost use Rattle.league_core.specs.game.Questions.{IsQuestionOf};
ghost use Rattle.league_core.specs.game.Seasons.{IsLeague};

use cert_check::{Accepted, AskedPart, ReportKind, check};
use check_bounds::holds_in;
use kept_lines::LineList;
use league_core::{Claim, Question, Reason, Sheet};
use sample_leagues::{Sample, sample_of};
use std::alloc::Global;
use std::test::Fail;

const LEAGUE: &[u8] =
    b"league,Tiny,1\nclub,A,1\nclub,B,2\nmatch,A,B\nline,1\nseason\nresult,1,0,0\n";

// One row alone is checked, and it has no verdict.
fn one_row_is_accepted(alloc: Global, sample: &Sample, lines: &LineList) -> bool
    requires { IsLeague sample.now.sheet sample.now.season }
{
    let asked = AskedPart {
        kind: ReportKind::Plain,
        epoch: 0,
    };
    let found = check(alloc, &sample.sheet, &sample.season, asked, lines, 0);
    let (next, rows, unsettled) = (1, 0, 0);
    found
        == Ok(Accepted {
            next,
            rows,
            unsettled,
        })
}

fn add_row(lines: &mut LineList) -> Result<(), Fail> {
    Ok(lines.add(1, b"ask,0").ok().ok_or("room")?)
}

fn lines_are_accepted(alloc: Global, sample: &Sample, lines: &mut LineList) -> Result<bool, Fail>
    requires { IsLeague sample.now.sheet sample.now.season }
{
    add_row(lines)?;
    Ok(one_row_is_accepted(alloc, sample, lines))
}

fn row_is_accepted(alloc: Global, sample: &Sample) -> Result<bool, Fail>
    requires { IsLeague sample.now.sheet sample.now.season }
{
    let mut lines = LineList::new(alloc).ok().ok_or("room")?;
    lines_are_accepted(alloc, sample, &mut lines)
}

fn part_is_accepted(alloc: Global) -> Result<bool, Fail> {
    let text = b"league,Tiny,1\nclub,A,1\nclub,B,2\nseason\n";
    let sample = sample_of(alloc, text).ok_or("league")?;
    row_is_accepted(alloc, &sample)
}

// A sheet without lines has a report of one row for each ask.
#[test]
fn a_part_is_accepted(rt: HostRuntime) -> Result<(), Fail> {
    assert!(rt; part_is_accepted(rt.alloc())?);
    Ok(())
}

fn reason_holds_in(alloc: Global, sample: &Sample) -> Result<bool, Fail>
    requires { IsLeague sample.now.sheet sample.now.season }
{
    let question = outside();
    if !may_be_asked(&sample.sheet, &question) {
        return Err("question".into());
    }
    let (sheet, season) = (&sample.sheet, &sample.season);
    Ok(holds_in(alloc, sheet, season, &question, &[], Reason::Tie) == Ok(true))
}

fn reason_holds(alloc: Global) -> Result<bool, Fail> {
    let sample = sample_of(alloc, LEAGUE).ok_or("league")?;
    reason_holds_in(alloc, &sample)
}

#[test]
fn a_reason_holds(rt: HostRuntime) -> Result<(), Fail> {
    assert!(rt; reason_holds(rt.alloc())?);
    Ok(())
}

fn outside() -> Question {
    Question {
        club: 0,
        line: 1,
        claim: Claim::Outside,
        low: -99,
        high: 1800,
    }
}

// A test of its own, so that what follows may rest on it.
fn may_be_asked(sheet: &Sheet, question: &Question) -> bool
    ensures { IsTrue result → IsQuestionOf sheet.now question.now }
{
    let clubs = sheet.clubs.len();
    let line = question.line as usize;
    (question.club as usize) < clubs && 1 <= line && line < clubs
}
