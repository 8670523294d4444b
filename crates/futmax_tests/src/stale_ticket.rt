//! A result comes while a worker has a ticket in hand: the ticket comes back, and is not worked on.

ghost use Rattle.std.specs.Prelude.{None, ⊤};

use crate::gates::{await_mark, is_set, set};
use crate::runs::{DRAWN, DRAWN_ROWS, is_answered, sink_of};
use port_core::{Got, MemSink, Source};
use std::alloc::Global;
use std::process::Abort;
use std::sync::Wait;
use std::sync::atomic::AtomicU64;
use std::test::Fail;
use std::thread::Threads;
use std::time::Clock;
use worker_gate::{Gate, Point};

// Marks what the worker and the source have come to.
#[derive(Drop)]
struct Marks {
    // The worker holds a ticket.
    taken: AtomicU64,
    // The result was reported.
    told: AtomicU64,
    // A ticket was worked on.
    worked: AtomicU64,
    // A ticket that was not worked on came back.
    undone: AtomicU64,
    missed: AtomicU64,
}

impl Marks {
    fn new() -> Marks {
        Marks {
            taken: AtomicU64::new(0),
            told: AtomicU64::new(0),
            worked: AtomicU64::new(0),
            undone: AtomicU64::new(0),
            missed: AtomicU64::new(0),
        }
    }
}

// Holds the worker at its first ticket until the result was reported.
impl Gate for Marks {
    fn at(&self, point: Point, _worker: u8) {
        match point {
            Point::Taken => {
                set(&self.taken);
                await_mark(&self.told, &self.missed);
            }
            Point::Worked => set(&self.worked),
            Point::Given => {
                if !is_set(&self.worked) {
                    set(&self.undone);
                }
            }
        }
    }
}

// Where the line of the result begins in the input, and the one after it.
const RESULT: usize = 56;

const BEHIND: usize = 69;

// Gives a byte a read. The result comes only once the worker holds a ticket. The feeder reads on
// after its line only when it has reported it.
#[derive(Drop)]
struct Bytes<'a> {
    bytes: &'a [u8],
    at: usize,
    ended: bool,
    marks: &'a Marks,
}

impl Bytes<'_> {
    fn meet(&self) {
        if self.at == RESULT {
            await_mark(&self.marks.taken, &self.marks.missed);
        } else if self.at == BEHIND {
            set(&self.marks.told);
        }
    }
}

impl Source for Bytes<'_> {
    ghost left = { λ source. None };

    ghost faults = { λ source. 0 };

    // No test speaks of its last read.
    ghost reads = { λ _ _ _. ⊤ };

    ghost ended = { λ source. source.ended };

    fn read(&mut self, into: &mut [u8]) -> Got {
        self.meet();
        let Some(byte) = self.bytes.get(self.at) else {
            self.ended = true;
            return Got::Bytes(0);
        };
        into[0] = *byte;
        self.at = self.at.wrapping_add(1);
        Got::Bytes(1)
    }
}

// Whether the run is answered, and writes the rows of 0:0.
fn is_answered_as_drawn<R: Threads + Wait + Clock + Abort + Sync + Alloc<A = Global>>(
    rt: &R,
    marks: &Marks,
) -> Result<(bool, bool), Fail> {
    let mut source = Bytes {
        bytes: DRAWN,
        at: 0,
        ended: false,
        marks,
    };
    let mut sink = sink_of(rt.alloc())?;
    writes_drawn(rt, &mut source, &mut sink, marks)
}

fn writes_drawn<R: Threads + Wait + Clock + Abort + Sync + Alloc<A = Global>>(
    rt: &R,
    source: &mut Bytes<'_>,
    sink: &mut MemSink,
    marks: &Marks,
) -> Result<(bool, bool), Fail> {
    let is_answered = is_answered(rt, "1", source, sink, marks)?;
    Ok((is_answered, sink.bytes() == DRAWN_ROWS))
}

#[test]
fn a_ticket_comes_back_undone_where_a_result_came(rt: HostRuntime) -> Result<(), Fail> {
    let marks = Marks::new();
    let (is_answered, is_drawn) = is_answered_as_drawn(&rt, &marks)?;
    assert!(rt; is_answered);
    assert!(rt; is_set(&marks.undone));
    assert!(rt; !is_set(&marks.missed));
    assert!(rt; is_drawn);
    Ok(())
}
