//! A round that fails its test if it does not end. All that meet in it are on one thread, so
//! whoever has to wait there waits in vain, but for the case in which the feed is shut on another.

use crate::cases::Case;
use crate::end::Round;
use crate::rounds::see_round;
use std::alloc::Global;
use std::process::Abort;
use std::sync::Wait;
use std::sync::atomic::{AtomicU64, Ordering};
use std::test::Fail;
use std::thread;
use std::thread::{Threads, join};
use std::time::{Clock, Duration};

/// What is seen of a round of this case.
pub fn watched<R: Threads + Wait + Clock + Abort + Sync + Alloc<A = Global>>(
    rt: &R,
    case: Case,
) -> Result<Round, Fail> {
    let ended = AtomicU64::new(0);
    let (_, round) = join(
        rt,
        || watch(rt, &ended),
        || {
            let round = see_round(rt, rt.alloc(), case);
            ended.store(1, Ordering::SeqCst);
            round
        },
    );
    round
}

// Waits for the mark of the end, and ends the test if none comes within forty seconds.
fn watch<R: Clock + Abort>(rt: &R, ended: &AtomicU64) {
    for _ in 0..4000 {
        if ended.load(Ordering::SeqCst) != 0 {
            return;
        }
        thread::sleep(rt, Duration::from_millis(10));
    }
    panic!(rt; "the round has not ended");
}
