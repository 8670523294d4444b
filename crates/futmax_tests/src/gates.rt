//! Marks that threads set and wait for, each a word that is 0 until it is set.

use std::process::Abort;
use std::sync::atomic::{AtomicU64, Ordering};
use std::thread;
use std::time::{Clock, Duration};

/// How often one who waits for a mark looks at it before it gives up.
const TURNS: u64 = 1_000_000;

pub fn set(mark: &AtomicU64) {
    mark.store(1, Ordering::SeqCst);
}

pub fn is_set(mark: &AtomicU64) -> bool {
    mark.load(Ordering::SeqCst) != 0
}

/// Waits for a mark, and sets the other one if it did not come.
pub fn await_mark(mark: &AtomicU64, missed: &AtomicU64) {
    for _ in 0..TURNS {
        if is_set(mark) {
            return;
        }
        thread::yield_now();
    }
    set(missed);
}

/// Waits for the mark of a run's end, and ends the test if none comes within forty seconds.
pub fn watch<R: Clock + Abort>(rt: &R, ended: &AtomicU64) {
    for _ in 0..4000 {
        if is_set(ended) {
            return;
        }
        thread::sleep(rt, Duration::from_millis(10));
    }
    panic!(rt; "the run has not ended");
}
