//! The pool is kept over a round without events: a second ask has nothing worked on again.

ghost use Rattle.std.specs.Prelude.{None};

use crate::runs::{is_answered, source_of};
use port_core::{MemSource, Put, Sink};
use std::alloc::Global;
use std::process::Abort;
use std::sync::Wait;
use std::sync::atomic::{AtomicU64, Ordering};
use std::test::Fail;
use std::thread::Threads;
use std::time::Clock;
use worker_gate::{Gate, Point};

// Two clubs and one match that ended 0:0, and two asks.
const ASKED_TWICE: &[u8] = b"league,Tiny,1\nclub,A,1\nclub,B,2\nmatch,A,B\nline,1\nseason\n\
    result,1,0,0\nask\nask\n";

// Counts the tickets.
#[derive(Drop)]
struct Count {
    taken: AtomicU64,
}

impl Gate for Count {
    fn at(&self, point: Point, _worker: u8) {
        if point == Point::Taken {
            self.taken.fetch_add(1, Ordering::SeqCst);
        }
    }
}

// Notes at each piece how many tickets there had been.
#[derive(Drop)]
struct Noting<'a> {
    count: &'a Count,
    notes: [u64; 6],
    pieces: usize,
}

impl Sink for Noting<'_> {
    ghost holds = { λ sink. None };

    ghost faults = { λ sink. 0 };

    fn write(&mut self, piece: &[u8]) -> Put {
        if self.pieces < self.notes.len() {
            self.notes[self.pieces] = self.count.taken.load(Ordering::SeqCst);
            self.pieces += 1;
        }
        Put::Took(piece.len())
    }
}

// What is noted of a run: whether it is answered, how many pieces it wrote, and how many tickets
// there had been at the first and at the fourth.
type Noted = (bool, usize, u64, u64);

fn note_run<R: Threads + Wait + Clock + Abort + Sync + Alloc<A = Global>>(
    rt: &R,
    source: &mut MemSource,
    count: &Count,
) -> Result<Noted, Fail> {
    let mut sink = Noting {
        count,
        notes: [0; 6],
        pieces: 0,
    };
    let is_answered = is_answered(rt, "1", source, &mut sink, count)?;
    Ok((is_answered, sink.pieces, sink.notes[0], sink.notes[3]))
}

fn note_two_asks<R: Threads + Wait + Clock + Abort + Sync + Alloc<A = Global>>(
    rt: &R,
    count: &Count,
) -> Result<Noted, Fail> {
    let mut source = source_of(rt.alloc(), ASKED_TWICE)?;
    note_run(rt, &mut source, count)
}

// Each answer has a row for the ask and one for each club, and each row is a piece.
#[test]
fn a_round_without_events_keeps_what_was_found(rt: HostRuntime) -> Result<(), Fail> {
    let count = Count {
        taken: AtomicU64::new(0),
    };
    let (is_answered, pieces, first, second) = note_two_asks(&rt, &count)?;
    assert!(rt; is_answered);
    assert_eq!(rt; pieces, 6);
    assert!(rt; first > 0);
    assert_eq!(rt; second, first);
    Ok(())
}
