//! Workers in company hold a ticket each, all at once, and work on nothing without one, whether the
//! feed is open or shut. A worker alone works without tickets once the feed is shut.

use crate::gates::{await_mark, is_set, set};
use crate::rounds::{SIXTEEN, TWICE_WON};
use crate::runs::{is_answered, sink_of, source_of};
use std::alloc::Global;
use std::process::Abort;
use std::sync::Wait;
use std::sync::atomic::{AtomicU64, Ordering};
use std::test::Fail;
use std::thread::Threads;
use std::time::Clock;
use worker_gate::{Gate, Point};

// What three workers have come to.
#[derive(Drop)]
struct Company {
    // A worker of this number is expected: the others wait at their tickets until it has one.
    expected: [bool; 3],
    came: [AtomicU64; 3],
    // How many tickets a worker holds: 0 or 1.
    held: [AtomicU64; 3],
    missed: AtomicU64,
    // A worker without a ticket has worked.
    in_place: AtomicU64,
}

impl Gate for Company {
    fn at(&self, point: Point, worker: u8) {
        let place = worker as usize;
        if place >= 3 {
            set(&self.missed);
            return;
        }
        match point {
            Point::Taken => {
                self.held[place].store(1, Ordering::SeqCst);
                set(&self.came[place]);
                self.meet();
            }
            Point::Worked => {
                if !is_set(&self.held[place]) {
                    set(&self.in_place);
                }
            }
            Point::Given => self.held[place].store(0, Ordering::SeqCst),
        }
    }
}

impl Company {
    fn new(expected: [bool; 3]) -> Company {
        Company {
            expected,
            came: [AtomicU64::new(0), AtomicU64::new(0), AtomicU64::new(0)],
            held: [AtomicU64::new(0), AtomicU64::new(0), AtomicU64::new(0)],
            missed: AtomicU64::new(0),
            in_place: AtomicU64::new(0),
        }
    }

    fn meet(&self) {
        for place in 0..3 {
            if self.expected[place] {
                await_mark(&self.came[place], &self.missed);
            }
        }
    }
}

// Whether a run on sixteen clubs with so many workers is answered.
fn is_run_answered<R: Threads + Wait + Clock + Abort + Sync + Alloc<A = Global>>(
    rt: &R,
    workers: &str,
    company: &Company,
) -> Result<bool, Fail> {
    let mut text = SIXTEEN.to_vec(rt.alloc())?;
    text.extend_from_slice(TWICE_WON)?;
    let mut source = source_of(rt.alloc(), &text)?;
    let mut sink = sink_of(rt.alloc())?;
    is_answered(rt, workers, &mut source, &mut sink, company)
}

#[test]
fn three_workers_hold_a_ticket_at_once(rt: HostRuntime) -> Result<(), Fail> {
    let company = Company::new([true, true, true]);
    assert!(rt; is_run_answered(&rt, "3", &company)?);
    assert!(rt; !is_set(&company.missed));
    assert!(rt; !is_set(&company.in_place));
    Ok(())
}

#[test]
fn a_worker_alone_works_without_tickets(rt: HostRuntime) -> Result<(), Fail> {
    let company = Company::new([true, false, false]);
    assert!(rt; is_run_answered(&rt, "1", &company)?);
    assert!(rt; !is_set(&company.missed));
    assert!(rt; is_set(&company.in_place));
    Ok(())
}
