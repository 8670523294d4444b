//! A worker: takes what the lock lends, works on it, and gives it back.

ghost use Rattle.std.specs.Prelude.{◌≡◌, IfErr, IfOk};
ghost use mathlib.Core.List.{IsPrefix};
ghost use Rattle.league_core.specs.game.Sheets.{IsWithinLimits};
ghost use Rattle.pool_lock.specs.inside.Lends.{IsWorkAfter};
ghost use Rattle.worker_gate.specs.inside.Workers.{HasWork, IsCrewFor, IsEndFor, IsNextFor};
ghost use Rattle.worker_gate.specs.inside.Workers.{IsSameSolver};

use crate::crew::{Crew, WorkerId};
use crate::gate::Gate;
use crate::next::{Next, give_up, pass_on, take_next};
use crate::piece::find_at;
use crate::sole_worker::go_on;
use branch_pool::Ticket;
use branch_rules::ZoneSolver;
use league_core::{OutOfMemory, Season, Sheet};
use local_search::WalkingSolver;
use pool_lock::{Job, PoolLock, WorkBadge};
use reason_core::Solver;
use score_box::Played;
use std::alloc::Global;
use std::sync::Wait;

/// How a worker ended.
#[derive(Clone, Copy, Debug, PartialEq, Eq)]
pub enum WorkerEnd {
    /// The lock's last answer to a taking was that nothing is left to work on, nothing is out, and
    /// no event will come.
    Over,
    /// Memory ran out. What the worker had in hand is given back undone.
    Memory,
}

/// Works on tickets until the lock has nothing more to lend. The gate hears where the worker is:
/// after each loan, after each piece of work, after each return; `worker` is its number, from 0.
///
/// A ticket goes back undone if an event has come since it was lent: the worker looks for that
/// before it works, and again before it gives back. A worker with the lock's only badge works in
/// the pool itself once no event will come: then there are no tickets, and the gate hears of its
/// work only.
pub fn run_worker<'a, J: Job, R: Wait, G: Gate>(
    rt: &'a R,
    alloc: Global,
    sheet: &'a Sheet,
    lock: &'a PoolLock<J>,
    badge: &mut WorkBadge<J>,
    worker: u8,
    gate: &'a G,
) -> WorkerEnd
    requires of_job { sheet.now ≡ J.sheet }
    requires limits { IsWithinLimits sheet.now }
    ensures end { IsEndFor badge.new result }
    ensures begins { IsPrefix badge.old.list badge.new.list }
{
    let crew = &Crew::new(rt, alloc, sheet, lock, gate);
    let worker = WorkerId {
        number: worker,
        is_sole: badge.is_sole(),
    };
    let mut next = take_next(crew, badge, worker);
    for _ in crew.rt.forever() {
        match next {
            Next::Work(ticket) => next = work_epoch(crew, badge, worker, ticket),
            Next::Over => return WorkerEnd::Over,
            Next::Memory => return WorkerEnd::Memory,
        }
    }
    unreachable!()
}

// Works on the ticket, and on those that follow it in its season.
fn work_epoch<J: Job, R: Wait, G: Gate>(
    crew: &Crew<J, R, G>,
    badge: &mut WorkBadge<J>,
    worker: WorkerId,
    ticket: Ticket,
) -> Next
    requires crew { IsCrewFor J.sheet crew.now.sheet.now }
    requires work { IsWorkAfter J.sheet badge.old.list ticket }
    ensures next { IsNextFor J.sheet badge.new result }
    ensures begins { IsPrefix badge.old.list badge.new.list }
{
    match ticket.piece.season.copy(crew.alloc) {
        Ok(season) => work_season(crew, &season, badge, worker, ticket),
        Err(OutOfMemory) => give_up(crew, badge, worker, ticket),
    }
}

fn work_season<J: Job, R: Wait, G: Gate>(
    crew: &Crew<J, R, G>,
    season: &Season,
    badge: &mut WorkBadge<J>,
    worker: WorkerId,
    ticket: Ticket,
) -> Next
    requires crew { IsCrewFor J.sheet crew.now.sheet.now }
    requires season { season.now ≡ ticket.piece.season }
    requires work { IsWorkAfter J.sheet badge.old.list ticket }
    ensures next { IsNextFor J.sheet badge.new result }
    ensures begins { IsPrefix badge.old.list badge.new.list }
{
    match Played::of(crew.alloc, crew.sheet, season) {
        Ok(played) => work_over(crew, &played, badge, worker, ticket),
        Err(OutOfMemory) => give_up(crew, badge, worker, ticket),
    }
}

// The same, over the tables of that season.
fn work_over<J: Job, R: Wait, G: Gate>(
    crew: &Crew<J, R, G>,
    played: &Played,
    badge: &mut WorkBadge<J>,
    worker: WorkerId,
    ticket: Ticket,
) -> Next
    requires work { HasWork J.sheet badge.old.list played.now.sheet played.now.season ticket }
    ensures next { IsNextFor J.sheet badge.new result }
    ensures begins { IsPrefix badge.old.list badge.new.list }
{
    match ZoneSolver::new(crew.alloc, played) {
        Ok(zones) => {
            let mut solver = WalkingSolver::new(crew.alloc, played, zones);
            work_on(crew, badge, worker, &mut solver, ticket)
        }
        Err(OutOfMemory) => give_up(crew, badge, worker, ticket),
    }
}

// Works on by one solver, until a ticket of another epoch comes.
fn work_on<J: Job, R: Wait, G: Gate, W: Solver>(
    crew: &Crew<J, R, G>,
    badge: &mut WorkBadge<J>,
    worker: WorkerId,
    solver: &mut W,
    ticket: Ticket,
) -> Next
    requires work { HasWork J.sheet badge.old.list (W.sheet solver.old) (W.season solver.old)
        ticket }
    ensures next { IsNextFor J.sheet badge.new result }
    ensures begins { IsPrefix badge.old.list badge.new.list }
{
    let epoch = ticket.epoch;
    let mut ticket = ticket;
    for _ in crew.rt.forever() {
        match of_epoch(take_turn(crew, badge, worker, solver, ticket), epoch) {
            Ok(next) => ticket = next,
            Err(next) => return next,
        }
    }
    unreachable!()
}

// The ticket that comes next, if it is of that epoch.
fn of_epoch(next: Next, epoch: u64) -> Result<Ticket, Next>
    ensures ok { IfOk result (λ ticket. next ≡ Next.Work ticket) }
    ensures epoch { IfOk result (λ ticket. ticket.epoch ≡ epoch) }
    ensures err { IfErr result (λ other. other ≡ next) }
{
    match next {
        Next::Work(ticket) if ticket.epoch == epoch => Ok(ticket),
        other => Err(other),
    }
}

// Works on the ticket, gives it back, and takes the next one.
fn take_turn<J: Job, R: Wait, G: Gate, W: Solver>(
    crew: &Crew<J, R, G>,
    badge: &mut WorkBadge<J>,
    worker: WorkerId,
    solver: &mut W,
    ticket: Ticket,
) -> Next
    requires work { HasWork J.sheet badge.old.list (W.sheet solver.old) (W.season solver.old)
        ticket }
    ensures next { IsNextFor J.sheet badge.new result }
    ensures begins { IsPrefix badge.old.list badge.new.list }
    ensures same { IsSameSolver W.sheet W.season solver.old solver.new }
{
    match find_at(crew, badge, worker, solver, &ticket) {
        Ok(Some(found)) => go_on(crew, badge, worker, solver, ticket, found),
        Ok(None) => pass_on(crew, badge, worker, ticket),
        Err(OutOfMemory) => give_up(crew, badge, worker, ticket),
    }
}
