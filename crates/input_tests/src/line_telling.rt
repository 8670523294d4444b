//! Lines and rows over devices in pieces, with faults, and at the limits. What is wanted is written
//! out by hand: a content as its bytes, its number and `|`, the end as `.` and its number, a fault
//! as `!`, a line that is too long as `>` and its number, an input that is too long as `>>` and the
//! number.

ghost use Rattle.std.specs.Prelude.{◌<◌};

use port_core::{Line, LineReader, MemSource, ReadStop, Source};
use std::alloc::Global;
use std::io::Write;
use std::test::Fail;

pub fn memory(alloc: Global, input: &[u8], piece: usize, fail: &[u64]) -> Result<MemSource, Fail>
    requires { 0 < piece }
{
    let bytes = Vec::from_slice(alloc, input)?;
    let fail = Vec::from_slice(alloc, fail)?;
    Ok(MemSource::new(bytes, piece, fail))
}

/// Prints a mark and a number.
pub fn tell_number(mark: &str, number: u64, out: &mut Vec<u8>) -> Result<(), Fail> {
    Ok(write!(out, "{mark}{number}")?)
}

/// Says why a source gave no line.
pub fn tell_read_stop(stop: ReadStop, out: &mut Vec<u8>) -> Result<(), Fail> {
    match stop {
        ReadStop::ReadFault => Ok(out.push(b'!')?),
        ReadStop::LineTooLong { number } => tell_number(">", number, out),
        ReadStop::InputTooLong { number } => tell_number(">>", number, out),
    }
}

fn tell_text(text: &[u8], number: u64, out: &mut Vec<u8>) -> Result<(), Fail> {
    out.extend_from_slice(text)?;
    tell_number("", number, out)?;
    Ok(out.push(b'|')?)
}

fn tell(
    answer: Result<Line, ReadStop>,
    reader: &LineReader,
    out: &mut Vec<u8>,
) -> Result<(), Fail> {
    match answer {
        Ok(Line::Text { number }) => tell_text(reader.text(), number, out),
        Ok(Line::End { number }) => tell_number(".", number, out),
        Err(stop) => tell_read_stop(stop, out),
    }
}

// Nothing more comes after the answer.
fn ends(answer: Result<Line, ReadStop>) -> bool {
    !matches!(answer, Ok(Line::Text { .. }) | Err(ReadStop::ReadFault))
}

/// All that a reader returns, up to and with the second answer that nothing more comes.
pub fn answers<S: Source>(alloc: Global, source: &mut S) -> Result<Vec<u8>, Fail> {
    let mut reader = LineReader::new(alloc)?;
    answers_of(alloc, &mut reader, source)
}

fn answers_of<S: Source>(
    alloc: Global,
    reader: &mut LineReader,
    source: &mut S,
) -> Result<Vec<u8>, Fail> {
    let mut out = Vec::new(alloc);
    tell_all(reader, source, &mut out)?;
    Ok(out)
}

fn tell_all<S: Source>(
    reader: &mut LineReader,
    source: &mut S,
    out: &mut Vec<u8>,
) -> Result<(), Fail> {
    let mut ended = false;
    for _ in 0..60 {
        let answer = reader.next(source);
        tell(answer, reader, out)?;
        if ends(answer) && ended {
            return Ok(());
        }
        ended = ended || ends(answer);
    }
    Ok(())
}

/// The same over a device in such pieces, of which these calls fail.
pub fn lines_told(alloc: Global, input: &[u8], piece: usize, fail: &[u64]) -> Result<Vec<u8>, Fail>
    requires { 0 < piece }
{
    let mut source = memory(alloc, input, piece, fail)?;
    answers(alloc, &mut source)
}
