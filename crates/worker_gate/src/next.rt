//! What a worker goes on with when it has been at the lock.

ghost use Rattle.std.specs.Prelude.{◌≡◌};
ghost use mathlib.Core.List.{IsPrefix};
ghost use Rattle.reason_core.specs.inside.Dones.{IsTrueOf};
ghost use Rattle.worker_gate.specs.inside.Workers.{IsNextFor, IsNextFrom};

use crate::crew::{Crew, WorkerId};
use crate::gate::{Gate, Point};
use crate::piece::give_undone;
use branch_pool::{Ticket, Took};
use league_core::OutOfMemory;
use pool_lock::{Job, LentOut, WorkBadge};
use reason_core::Finding;
use std::sync::Wait;

/// What a worker goes on with.
pub enum Next {
    Work(Ticket),
    Over,
    Memory,
}

/// What the lock lends next, as soon as there is something.
pub fn take_next<J: Job, R: Wait, G: Gate>(
    crew: &Crew<J, R, G>,
    badge: &mut WorkBadge<J>,
    worker: WorkerId,
) -> Next
    ensures next { IsNextFor J.sheet badge.new result }
    ensures lent { IsNextFrom J.sheet J.questions badge.new.list result }
    ensures begins { IsPrefix badge.old.list badge.new.list }
{
    match crew.lock.lend(crew.rt, badge) {
        Ok(LentOut::Work(ticket)) => {
            crew.gate.at(Point::Taken, worker.number);
            Next::Work(ticket)
        }
        Ok(LentOut::Over) => Next::Over,
        Err(OutOfMemory) => Next::Memory,
    }
}

/// Gives the ticket back with what was found there, and takes the next one at once, if there is
/// one; the gate hears of both afterwards. If there is none the worker waits for the next one.
pub fn hand_over<J: Job, R: Wait, G: Gate>(
    crew: &Crew<J, R, G>,
    badge: &mut WorkBadge<J>,
    worker: WorkerId,
    ticket: Ticket,
    found: Finding,
) -> Next
    requires sound { IsTrueOf J.sheet ticket.piece found }
    ensures next { IsNextFor J.sheet badge.new result }
    ensures lent { IsNextFrom J.sheet J.questions badge.new.list result }
    ensures begins { IsPrefix badge.old.list badge.new.list }
{
    let (_, took) = crew.lock.swap(crew.rt, badge, ticket, found);
    crew.gate.at(Point::Given, worker.number);
    match took {
        Took::Lent(next) => {
            crew.gate.at(Point::Taken, worker.number);
            Next::Work(next)
        }
        Took::Rest => take_next(crew, badge, worker),
        Took::Over => Next::Over,
        Took::OutOfMemory => Next::Memory,
    }
}

/// Gives the ticket back undone, and takes the next one.
pub fn pass_on<J: Job, R: Wait, G: Gate>(
    crew: &Crew<J, R, G>,
    badge: &mut WorkBadge<J>,
    worker: WorkerId,
    ticket: Ticket,
) -> Next
    ensures next { IsNextFor J.sheet badge.new result }
    ensures lent { IsNextFrom J.sheet J.questions badge.new.list result }
    ensures begins { IsPrefix badge.old.list badge.new.list }
{
    give_undone(crew, badge, worker, ticket);
    take_next(crew, badge, worker)
}

/// Gives back undone what the worker has in hand, since memory ran out.
pub fn give_up<J: Job, R: Wait, G: Gate>(
    crew: &Crew<J, R, G>,
    badge: &mut WorkBadge<J>,
    worker: WorkerId,
    in_hand: Ticket,
) -> Next
    ensures next { result ≡ Next.Memory }
    ensures begins { IsPrefix badge.old.list badge.new.list }
{
    give_undone(crew, badge, worker, in_hand);
    Next::Memory
}
