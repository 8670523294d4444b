//! A worker without company: once no event will come, it works in the pool itself.

ghost use Rattle.std.specs.Prelude.{◌≡◌, length};
ghost use mathlib.Core.List.{IsPrefix};
ghost use Rattle.league_core.specs.game.Seasons.{season_after};
ghost use Rattle.reason_core.specs.inside.Dones.{IsTrueOf};
ghost use Rattle.worker_gate.specs.inside.Workers.{HasWork, IsNextFor, IsSameSolver, WorksInPool};

use crate::crew::{Crew, WorkerId};
use crate::gate::{Gate, Point};
use crate::next::{Next, hand_over, take_next};
use branch_pool::{Gave, Ticket, Turn};
use league_core::OutOfMemory;
use pool_lock::{Job, WorkBadge};
use reason_core::{Finding, Solver};
use std::sync::Wait;

/// Gives the ticket back with what was found there, and takes the next one. A worker without
/// company works in the pool in between, if no event will come.
pub fn go_on<J: Job, R: Wait, G: Gate, W: Solver>(
    crew: &Crew<J, R, G>,
    badge: &mut WorkBadge<J>,
    worker: WorkerId,
    solver: &mut W,
    ticket: Ticket,
    found: Finding,
) -> Next
    requires work { HasWork J.sheet badge.old.list (W.sheet solver.old) (W.season solver.old)
        ticket }
    requires sound { IsTrueOf J.sheet ticket.piece found }
    ensures next { IsNextFor J.sheet badge.new result }
    ensures begins { IsPrefix badge.old.list badge.new.list }
    ensures same { IsSameSolver W.sheet W.season solver.old solver.new }
{
    if worker.is_sole {
        continue_in_place(crew, badge, worker, solver, ticket, found)
    } else {
        hand_over(crew, badge, worker, ticket, found)
    }
}

fn continue_in_place<J: Job, R: Wait, G: Gate, W: Solver>(
    crew: &Crew<J, R, G>,
    badge: &mut WorkBadge<J>,
    worker: WorkerId,
    solver: &mut W,
    ticket: Ticket,
    found: Finding,
) -> Next
    requires work { HasWork J.sheet badge.old.list (W.sheet solver.old) (W.season solver.old)
        ticket }
    requires sound { IsTrueOf J.sheet ticket.piece found }
    ensures next { IsNextFor J.sheet badge.new result }
    ensures begins { IsPrefix badge.old.list badge.new.list }
    ensures same { IsSameSolver W.sheet W.season solver.old solver.new }
{
    let epoch = ticket.epoch;
    let gave = crew.lock.give(crew.rt, badge, ticket, Some(found));
    crew.gate.at(Point::Given, worker.number);
    match gave {
        Gave::Kept => work_and_take(crew, badge, worker, epoch, solver),
        Gave::Stale { .. } => take_next(crew, badge, worker),
    }
}

// Works in the pool as long as no event will come, and takes the next ticket.
fn work_and_take<J: Job, R: Wait, G: Gate, W: Solver>(
    crew: &Crew<J, R, G>,
    badge: &mut WorkBadge<J>,
    worker: WorkerId,
    epoch: u64,
    solver: &mut W,
) -> Next
    requires work { WorksInPool J.sheet badge.old.list epoch (W.sheet solver.old)
        (W.season solver.old) }
    ensures next { IsNextFor J.sheet badge.new result }
    ensures begins { IsPrefix badge.old.list badge.new.list }
    ensures same { IsSameSolver W.sheet W.season solver.old solver.new }
{
    match work_in_place(crew, badge, worker, epoch, solver) {
        Ok(()) => take_next(crew, badge, worker),
        Err(OutOfMemory) => Next::Memory,
    }
}

// Works in the pool as long as there is work and no event will come.
fn work_in_place<J: Job, R: Wait, G: Gate, W: Solver>(
    crew: &Crew<J, R, G>,
    badge: &mut WorkBadge<J>,
    worker: WorkerId,
    epoch: u64,
    solver: &mut W,
) -> Result<(), OutOfMemory>
    requires work { WorksInPool J.sheet badge.old.list epoch (W.sheet solver.old)
        (W.season solver.old) }
    ensures begins { IsPrefix badge.old.list badge.new.list }
    ensures same { IsSameSolver W.sheet W.season solver.old solver.new }
{
    for _ in crew.rt.forever() {
        match crew.lock.work(crew.rt, badge, epoch, solver) {
            Some(Turn::Worked) => crew.gate.at(Point::Worked, worker.number),
            Some(Turn::OutOfMemory) => return Err(OutOfMemory),
            Some(Turn::Nothing) | None => return Ok(()),
        }
    }
    unreachable!()
}
