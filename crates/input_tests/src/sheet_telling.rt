//! What the tests read, written out: a sheet as its parts, a refusal as its line and code, a fault
//! of the source as `!`, a line that is too long as `>` and its number. After it stands the next
//! content with its number, or the end as `.` and its number.

ghost use Rattle.std.specs.Prelude.{◌<◌};

use crate::line_telling::{memory, tell_number, tell_read_stop};
use fixture_sheet::{SheetStop, read_sheet};
use league_core::{Order, Sheet};
use port_core::{Line, LineReader, MemSource};
use std::alloc::Global;
use std::io::Write;
use std::test::Fail;

/// What `read_sheet` returns for this input, and what comes after it.
pub fn told(alloc: Global, input: &[u8], piece: usize, fail: &[u64]) -> Result<Vec<u8>, Fail>
    requires { 0 < piece }
{
    let mut source = memory(alloc, input, piece, fail)?;
    told_over(alloc, &mut source)
}

fn told_over(alloc: Global, source: &mut MemSource) -> Result<Vec<u8>, Fail> {
    let mut reader = LineReader::new(alloc)?;
    told_by(alloc, &mut reader, source)
}

fn told_by(
    alloc: Global,
    reader: &mut LineReader,
    source: &mut MemSource,
) -> Result<Vec<u8>, Fail> {
    let mut out = Vec::new(alloc);
    tell_first(alloc, reader, source, &mut out)?;
    tell_next(reader, source, &mut out)?;
    Ok(out)
}

fn tell_first(
    alloc: Global,
    reader: &mut LineReader,
    source: &mut MemSource,
    out: &mut Vec<u8>,
) -> Result<(), Fail> {
    let answer = read_sheet(alloc, reader, source);
    tell_answer(&answer, out)
}

fn tell_answer(answer: &Result<Sheet, SheetStop>, out: &mut Vec<u8>) -> Result<(), Fail> {
    match answer {
        Ok(sheet) => tell_sheet(sheet, out),
        Err(stop) => tell_stop(*stop, out),
    }
}

/// The sheet of a text.
pub fn sheet_of(alloc: Global, text: &[u8]) -> Result<Sheet, Fail> {
    let mut source = memory(alloc, text, 1000, &[])?;
    let mut reader = LineReader::new(alloc)?;
    match read_sheet(alloc, &mut reader, &mut source) {
        Ok(sheet) => Ok(sheet),
        Err(_) => Err("no sheet".into()),
    }
}

fn tell_sheet(sheet: &Sheet, out: &mut Vec<u8>) -> Result<(), Fail> {
    tell_head(sheet, out)?;
    tell_clubs(sheet, out)?;
    tell_fixtures(sheet, out)?;
    tell_lines(sheet, out)
}

fn tell_head(sheet: &Sheet, out: &mut Vec<u8>) -> Result<(), Fail> {
    let (name, goals, budget) = (sheet.name.as_str(), sheet.goal_limit, sheet.budget);
    write!(out, "{name} {goals} {budget}|")?;
    if sheet.order == Order::OverallFirst {
        write!(out, "overall|")?;
    }
    Ok(())
}

fn tell_clubs(sheet: &Sheet, out: &mut Vec<u8>) -> Result<(), Fail> {
    for club in sheet.clubs.as_slice() {
        let (name, rank) = (club.name.as_str(), club.rank);
        write!(out, "{name} {rank};")?;
    }
    Ok(out.push(b'|')?)
}

fn tell_fixtures(sheet: &Sheet, out: &mut Vec<u8>) -> Result<(), Fail> {
    for fixture in sheet.fixtures.as_slice() {
        let (home, away) = (fixture.home, fixture.away);
        write!(out, "{home}-{away};")?;
    }
    Ok(out.push(b'|')?)
}

fn tell_lines(sheet: &Sheet, out: &mut Vec<u8>) -> Result<(), Fail> {
    for line in sheet.lines.as_slice() {
        write!(out, "{line};")?;
    }
    Ok(())
}

fn tell_stop(stop: SheetStop, out: &mut Vec<u8>) -> Result<(), Fail> {
    match stop {
        SheetStop::Fault { number, fault } => Ok(write!(out, "{number},{fault}")?),
        SheetStop::Read(stop) => tell_read_stop(stop, out),
        SheetStop::OutOfMemory => Ok(out.extend_from_slice(b"no memory")?),
    }
}

fn tell_next(
    reader: &mut LineReader,
    source: &mut MemSource,
    out: &mut Vec<u8>,
) -> Result<(), Fail> {
    match reader.next(source) {
        Ok(Line::Text { number }) => tell_text(number, reader.text(), out),
        Ok(Line::End { number }) => tell_number(" .", number, out),
        Err(_) => Ok(out.extend_from_slice(b" !")?),
    }
}

fn tell_text(number: u64, text: &[u8], out: &mut Vec<u8>) -> Result<(), Fail> {
    write!(out, " {number}:")?;
    Ok(out.extend_from_slice(text)?)
}
