//! One ticket in a worker's hand.

ghost use Rattle.std.specs.Prelude.{◌≡◌, IfOk, IfSome};
ghost use mathlib.Core.List.{IsPrefix};
ghost use Rattle.reason_core.specs.inside.Dones.{IsTrueOf};
ghost use Rattle.worker_gate.specs.inside.Workers.{HasWork, IsSameSolver};

use crate::crew::{Crew, WorkerId};
use crate::gate::{Gate, Point};
use branch_pool::Ticket;
use league_core::OutOfMemory;
use pool_lock::{Job, WorkBadge};
use reason_core::{Finding, Solver};
use std::sync::Wait;

/// What is found at the ticket, or nothing if the season has moved on: before the work, or by its
/// end.
pub fn find_at<J: Job, R: Wait, G: Gate, W: Solver>(
    crew: &Crew<J, R, G>,
    badge: &mut WorkBadge<J>,
    worker: WorkerId,
    solver: &mut W,
    ticket: &Ticket,
) -> Result<Option<Finding>, OutOfMemory>
    requires work { HasWork J.sheet badge.old.list (W.sheet solver.old) (W.season solver.old)
        ticket.now }
    ensures found { IfOk result (λ found. IfSome found (IsTrueOf J.sheet ticket.now.piece)) }
    ensures seen { badge.new.list ≡ badge.old.list }
    ensures same { IsSameSolver W.sheet W.season solver.old solver.new }
{
    if crew.lock.cancelled(badge, ticket.epoch).is_some() {
        return Ok(None);
    }
    let found = solver.solve(
        &ticket.piece.question,
        ticket.piece.zone.literals.as_slice(),
    )?;
    Ok(if_present(crew, badge, worker, ticket, found))
}

// What was found, or nothing if the season has moved on by the end of the work.
fn if_present<J: Job, R: Wait, G: Gate>(
    crew: &Crew<J, R, G>,
    badge: &mut WorkBadge<J>,
    worker: WorkerId,
    ticket: &Ticket,
    found: Finding,
) -> Option<Finding>
    ensures found { IfSome result (λ kept. kept ≡ found) }
    ensures seen { badge.new.list ≡ badge.old.list }
{
    crew.gate.at(Point::Worked, worker.number);
    if crew.lock.cancelled(badge, ticket.epoch).is_some() {
        return None;
    }
    Some(found)
}

/// Gives the ticket back undone.
pub fn give_undone<J: Job, R: Wait, G: Gate>(
    crew: &Crew<J, R, G>,
    badge: &mut WorkBadge<J>,
    worker: WorkerId,
    ticket: Ticket,
)
    ensures { IsPrefix badge.old.list badge.new.list }
{
    let _ = crew.lock.give(crew.rt, badge, ticket, None);
    crew.gate.at(Point::Given, worker.number);
}
