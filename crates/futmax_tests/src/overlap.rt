//! Two workers are inside at once: the first that takes a ticket is held until another one has
//! given one back.

use crate::gates::{await_mark, is_set, set};
use crate::runs::{TWO_CLUBS, is_answered, sink_of, source_of};
use std::alloc::Global;
use std::process::Abort;
use std::sync::Wait;
use std::sync::atomic::{AtomicU64, Ordering};
use std::test::Fail;
use std::thread::Threads;
use std::time::Clock;
use worker_gate::{Gate, Point};

// Holds the first worker that takes a ticket. Its number is kept from 1.
#[derive(Drop)]
struct Meeting {
    held: AtomicU64,
    given: AtomicU64,
    missed: AtomicU64,
}

impl Gate for Meeting {
    fn at(&self, point: Point, worker: u8) {
        match point {
            Point::Taken => self.hold(u64::from(worker) + 1),
            Point::Worked => {}
            Point::Given => self.note(u64::from(worker) + 1),
        }
    }
}

impl Meeting {
    fn new() -> Meeting {
        Meeting {
            held: AtomicU64::new(0),
            given: AtomicU64::new(0),
            missed: AtomicU64::new(0),
        }
    }

    fn hold(&self, worker: u64) {
        let first = self
            .held
            .compare_exchange(0, worker, Ordering::SeqCst, Ordering::SeqCst)
            .is_ok();
        if first {
            await_mark(&self.given, &self.missed);
        }
    }

    fn note(&self, worker: u64) {
        if self.held.load(Ordering::SeqCst) != worker {
            set(&self.given);
        }
    }
}

// Whether a run of two workers is answered.
fn is_run_answered<R: Threads + Wait + Clock + Abort + Sync + Alloc<A = Global>>(
    rt: &R,
    gate: &Meeting,
) -> Result<bool, Fail> {
    let mut source = source_of(rt.alloc(), TWO_CLUBS)?;
    let mut sink = sink_of(rt.alloc())?;
    is_answered(rt, "2", &mut source, &mut sink, gate)
}

#[test]
fn two_workers_are_inside_at_once(rt: HostRuntime) -> Result<(), Fail> {
    let gate = Meeting::new();
    assert!(rt; is_run_answered(&rt, &gate)?);
    assert!(rt; is_set(&gate.held));
    assert!(rt; is_set(&gate.given));
    assert!(rt; !is_set(&gate.missed));
    Ok(())
}
