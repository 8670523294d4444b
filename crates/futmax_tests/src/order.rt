//! An answer, and the row of a fault, is on the sink before the next line is read.

ghost use Rattle.std.specs.Prelude.{None, ⊤};

use crate::words::words_of;
use futmax_main::{Status, futmax};
use port_core::{Got, Put, Sink, Source};
use std::alloc::Global;
use std::sync::Wait;
use std::sync::atomic::{AtomicU64, Ordering};
use std::test::Fail;
use std::thread::Threads;
use worker_gate::OpenGate;

// A draw with goals, an ask, the score put right, and an ask again.
const CORRECTED: &[u8] = b"league,Tiny,1\nclub,A,1\nclub,B,2\nmatch,A,B\nline,1\nseason\n\
    result,1,1,1\nask\nfix,1,1,0\nask\n";

// Gives a byte at a time, and counts them if the sink can see it.
#[derive(Drop)]
struct Counted<'a> {
    bytes: &'a [u8],
    at: usize,
    ended: bool,
    given: &'a AtomicU64,
}

impl Source for Counted<'_> {
    ghost left = { λ source. None };

    ghost faults = { λ source. 0 };

    // No test speaks of its last read.
    ghost reads = { λ _ _ _. ⊤ };

    ghost ended = { λ source. source.ended };

    fn read(&mut self, into: &mut [u8]) -> Got {
        let Some(byte) = self.bytes.get(self.at) else {
            self.ended = true;
            return Got::Bytes(0);
        };
        into[0] = *byte;
        self.at = self.at.wrapping_add(1);
        self.given.fetch_add(1, Ordering::SeqCst);
        Got::Bytes(1)
    }
}

// Notes at each piece how many bytes the source had given.
#[derive(Drop)]
struct Noting<'a> {
    given: &'a AtomicU64,
    notes: [u64; 8],
    pieces: usize,
}

impl Sink for Noting<'_> {
    ghost holds = { λ sink. None };

    ghost faults = { λ sink. 0 };

    fn write(&mut self, piece: &[u8]) -> Put {
        if self.pieces < self.notes.len() {
            self.notes[self.pieces] = self.given.load(Ordering::SeqCst);
            self.pieces += 1;
        }
        Put::Took(piece.len())
    }
}

// How the run ends, and what had been read at each of the first pieces.
fn notes_of(
    rt: &(impl Threads + Wait + Sync + Alloc<A = Global>),
    mode: &str,
    bytes: &[u8],
) -> Result<(Status, [u64; 8]), Fail> {
    let given = AtomicU64::new(0);
    let mut source = Counted {
        bytes,
        at: 0,
        ended: false,
        given: &given,
    };
    let mut sink = Noting {
        given: &given,
        notes: [0; 8],
        pieces: 0,
    };
    let words = words_of(rt.alloc(), &["futmax", mode])?;
    let status = futmax(rt, rt.alloc(), words, &mut source, &mut sink, &OpenGate);
    Ok((status, sink.notes))
}

// The first ask ends 14 bytes before the end, the second at the end. Each answer has three rows.
#[test]
fn an_answer_comes_before_the_next_line(rt: HostRuntime) -> Result<(), Fail> {
    let end = CORRECTED.len() as u64;
    let first = end - 14;
    let (status, notes) = notes_of(&rt, "verdicts", CORRECTED)?;
    assert_eq!(rt; status, Status::Done);
    let wanted = [first, first, first, end, end, end, 0, 0];
    assert_eq!(rt; notes.as_slice(), wanted.as_slice());
    Ok(())
}

// A club without a rank that may be, in 23 bytes with its LF, and a line more. A correction of a
// match without a score, in 66, and an ask. A comment of 2,000 bytes, which is too long with its
// 1,025th.
#[test]
fn a_fault_comes_before_the_next_line(rt: HostRuntime) -> Result<(), Fail> {
    let (status, notes) = notes_of(&rt, "verdicts", b"league,Tiny,1\nclub,A,0\nclub,B,2\n")?;
    assert!(rt; status == Status::BadSheet && notes == [23, 0, 0, 0, 0, 0, 0, 0]);
    let feed = b"league,Tiny,1\nclub,A,1\nclub,B,2\nmatch,A,B\nline,1\nseason\nfix,1,1,0\nask\n";
    let (status, notes) = notes_of(&rt, "verdicts", feed)?;
    assert!(rt; status == Status::BadFeed && notes == [66, 0, 0, 0, 0, 0, 0, 0]);
    let (status, notes) = notes_of(&rt, "verdicts", &[b'#'; 2000])?;
    assert!(rt; status == Status::TooLong && notes == [1025, 0, 0, 0, 0, 0, 0, 0]);
    Ok(())
}

// The `when` ends 4 bytes before the end. It has 21 rows.
#[test]
fn a_match_is_answered_before_the_next_line(rt: HostRuntime) -> Result<(), Fail> {
    let feed = b"league,Tiny,1\nclub,A,1\nclub,B,2\nmatch,A,B\nline,1\nseason\nwhen,1\nask\n";
    let (status, notes) = notes_of(&rt, "whatif", feed)?;
    assert!(rt; status == Status::Done && notes == [63; 8]);
    Ok(())
}
