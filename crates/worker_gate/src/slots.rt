//! The workers of a round, each in its slot.

ghost use Rattle.std.specs.Thread.{IsSync};
ghost use Rattle.worker_gate.specs.inside.Workers.{IsCrewFor};

use crate::crew::Crew;
use crate::gate::Gate;
use crate::worker::run_worker;
use league_core::OutOfMemory;
use pool_lock::{Job, WorkBadge};
use std::alloc::Global;
use std::sync::Wait;
use std::thread::{Threads, join};

/// A badge, and the number of its worker.
#[derive(Drop)]
pub struct WorkerSlot<J: Job> {
    badge: WorkBadge<J>,
    number: u8,
}

/// A slot for each badge, in their order.
pub fn worker_slots<J: Job>(
    alloc: Global,
    badges: Vec<WorkBadge<J>>,
) -> Result<Vec<WorkerSlot<J>>, OutOfMemory> {
    let mut slots = Vec::new(alloc);
    let mut number = 0;
    for badge in badges {
        slots.push(WorkerSlot { badge, number })?;
        number = number.wrapping_add(1);
    }
    Ok(slots)
}

/// Lets all of them work, side by side if threads can be made, and one after another if not, until
/// the lock has nothing more to lend.
pub fn run_all<J: Job + Send + Sync, R: Threads + Wait + Sync, G: Gate + Sync>(
    crew: &Crew<J, R, G>,
    slots: &mut [WorkerSlot<J>],
)
    requires crew { IsCrewFor J.sheet crew.now.sheet.now }
{
    if slots.len() < 2 {
        if let Some(slot) = slots.first_mut() {
            run_slot(crew, slot);
        }
        return;
    }
    let (left, right) = slots.split_at_mut(slots.len() / 2);
    join(
        crew.rt,
        ||
            requires { IsCrewFor J.sheet crew.now.sheet.now × IsSync R.row × IsSync G.row }
        { run_all(crew, left) },
        ||
            requires { IsCrewFor J.sheet crew.now.sheet.now × IsSync R.row × IsSync G.row }
        { run_all(crew, right) },
    );
}

// Lets the worker of one slot work. Its end is of no concern to the round: one that is over has
// nothing left to do, and one without memory has given back what it had in hand.
fn run_slot<J: Job, R: Wait, G: Gate>(crew: &Crew<J, R, G>, slot: &mut WorkerSlot<J>)
    requires crew { IsCrewFor J.sheet crew.now.sheet.now }
{
    let badge = &mut slot.badge;
    let _end = run_worker(
        crew.rt,
        crew.alloc,
        crew.sheet,
        crew.lock,
        badge,
        slot.number,
        crew.gate,
    );
}
