//! What comes of a case.

use crate::case::{Case, Shown, Trouble};
use crate::input::add_span;
use futmax_main::{Status, futmax};
use port_core::{MemSink, MemSource};
use std::alloc::Global;
use std::io;
use std::io::Write;
use std::sync::Wait;
use std::thread::Threads;
use worker_gate::OpenGate;

/// Prints the status and the rows; if a trouble is run with several numbers, the rows of the run
/// without it, and then how much of them each run wrote; if the input is cut, the rows of each. A
/// row that lacks its LF is printed with a backslash.
pub fn print_answer(
    rt: &(impl Threads + Wait + Print + Sync + Alloc<A = Global>),
    case: &Case,
) -> io::Result<()> {
    if case.first == case.last {
        let (status, rows) = run(rt, case, case.trouble, case.first)?;
        return print_rows(rt, case, status, &rows);
    }
    let (status, rows) = run(rt, case, Trouble::Nothing, 0)?;
    print_rows(rt, case, status, &rows)?;
    for number in case.first..=case.last {
        let (status, written) = run(rt, case, case.trouble, number)?;
        if case.trouble == Trouble::Cut {
            print!(rt; "{number}: ")?;
            print_rows(rt, case, status, &written)?;
        } else {
            print_prefix(rt, number, status, &written, &rows)?;
        }
    }
    Ok(())
}

fn print_rows(
    rt: &(impl Print + Alloc<A = Global>),
    case: &Case,
    status: Status,
    rows: &[u8],
) -> io::Result<()> {
    let code = status.code();
    println!(rt; "status {code}")?;
    let mut text = Vec::new(rt.alloc());
    for row in rows.split_inclusive(|byte| *byte == b'\n') {
        add_row(&mut text, row, case.shown)?;
    }
    io::writer(rt).write_all(&text)
}

fn add_row(text: &mut Vec<u8>, row: &[u8], shown: Shown) -> io::Result<()> {
    let is_field = !row.starts_with(b"[");
    if is_field || shown == Shown::Whole {
        text.extend_from_slice(row)?;
        if !row.ends_with(b"\n") {
            text.extend_from_slice(b"\\\n")?;
        }
    } else if shown == Shown::Outline {
        text.extend_from_slice(outline_of(row))?;
        text.push(b'\n')?;
    }
    Ok(())
}

// What stands before the second comma, and before the second bracket.
fn outline_of(row: &[u8]) -> &[u8] {
    let mut has_comma = false;
    for (at, byte) in row.iter().enumerate() {
        let is_end = *byte == b'[' && 0 < at || *byte == b',' && has_comma || *byte == b'\n';
        if is_end {
            return &row[..at];
        }
        has_comma |= *byte == b',';
    }
    row
}

fn print_prefix(
    rt: &impl Print,
    number: u64,
    status: Status,
    front: &[u8],
    rows: &[u8],
) -> io::Result<()> {
    let code = status.code();
    let count = front.len();
    if rows.starts_with(front) {
        println!(rt; "{number}: status {code}, the first {count} bytes")
    } else {
        println!(rt; "{number}: status {code}, {count} other bytes")
    }
}

fn run(
    rt: &(impl Threads + Wait + Sync + Alloc<A = Global>),
    case: &Case,
    trouble: Trouble,
    number: u64,
) -> io::Result<(Status, Vec<u8>)> {
    let alloc = rt.alloc();
    let read_fails = if trouble == Trouble::ReadFails {
        number
    } else {
        0
    };
    let write_fails = if trouble == Trouble::WriteFails {
        number
    } else {
        0
    };
    let room = if trouble == Trouble::Room {
        number as usize
    } else {
        65536
    };
    let piece = case.piece.max(1);
    let fails = vec![in alloc; read_fails]?;
    let mut source = MemSource::new(input_of(alloc, case, trouble, number)?, piece, fails);
    let fails = vec![in alloc; write_fails]?;
    let Ok(mut sink) = MemSink::new(alloc, room, piece, fails) else {
        return Err(io::ErrorKind::OutOfMemory.into());
    };
    let status = futmax(
        rt,
        alloc,
        case.words.clone()?,
        &mut source,
        &mut sink,
        &OpenGate,
    );
    Ok((status, sink.bytes().to_vec(alloc)?))
}

// The input, up to the line of this number if it is cut.
fn input_of(alloc: Global, case: &Case, trouble: Trouble, number: u64) -> io::Result<Vec<u8>> {
    let last = if trouble == Trouble::Cut {
        number
    } else {
        u64::MAX
    };
    let mut input = Vec::new(alloc);
    add_span(&mut input, &case.input, (1, last))?;
    Ok(input)
}
