//! A worker that waits for work, and is woken once the feed is shut.

use crate::cases::is_over;
use branch_pool::Gave;
use pool_lock::{Front, Job, PoolLock, WorkBadge};
use std::sync::Wait;
use std::sync::atomic::{AtomicU64, Ordering};
use std::test::Fail;
use std::thread;
use std::thread::{Threads, join};

// How often the one who reports lets others run before the feed is shut.
const TURNS: u32 = 100_000;

/// A worker asks for work while the feed is open, of which there is none, so that it waits; the
/// feed is shut then, and nothing happens after that. It is told that all is over. If it asks so
/// late that the feed is shut already, it is told the same.
pub fn be_woken<J: Job + Send + Sync, R: Threads + Wait + Sync>(
    rt: &R,
    lock: &PoolLock<J>,
    front: &mut Front<J>,
    badge: &mut WorkBadge<J>,
) -> Result<Option<(Gave, Gave)>, Fail> {
    let asks = AtomicU64::new(0);
    let (is_over, ()) = join(
        rt,
        || ask(rt, lock, badge, &asks),
        || shut_late(rt, lock, front, &asks),
    );
    if is_over {
        Ok(None)
    } else {
        Err("not over".into())
    }
}

// Sets the mark, and asks for work: it is told that all is over.
fn ask<J: Job, R: Wait>(
    rt: &R,
    lock: &PoolLock<J>,
    badge: &mut WorkBadge<J>,
    asks: &AtomicU64,
) -> bool {
    asks.store(1, Ordering::SeqCst);
    is_over(rt, lock, badge)
}

// Shuts the feed some time after the mark is set, so that the worker waits by then; also if it is
// not set, as where there is one thread.
fn shut_late<J: Job, R: Wait>(rt: &R, lock: &PoolLock<J>, front: &mut Front<J>, asks: &AtomicU64) {
    for _ in 0..TURNS {
        if asks.load(Ordering::SeqCst) != 0 {
            break;
        }
        thread::yield_now();
    }
    for _ in 0..TURNS {
        thread::yield_now();
    }
    lock.shut(rt, front);
}
