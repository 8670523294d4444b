//! What is found at tickets, and tickets that are lost.

ghost use Rattle.std.specs.Prelude.{◌≡◌, IfOk};
ghost use Rattle.league_core.specs.game.Sheets.{IsWithinLimits};
ghost use Rattle.reason_core.specs.inside.Dones.{IsTrueDone, IsTrueOf};
ghost use Rattle.pool_lock.specs.inside.Lends.{IsWorkAfter};

use branch_pool::Ticket;
use branch_rules::{ZoneSolver, work};
use league_core::{OutOfMemory, Sheet};
use pool_lock::{Job, WorkBadge};
use reason_core::{Done, Finding, Solver};
use score_box::Played;
use std::alloc::Global;

/// What is found at a ticket, without its piece.
pub fn finding_at<J: Job>(
    alloc: Global,
    sheet: &Sheet,
    badge: &WorkBadge<J>,
    ticket: &Ticket,
) -> Result<Finding, OutOfMemory>
    requires of_job { sheet.now ≡ J.sheet }
    requires limits { IsWithinLimits sheet.now }
    requires work { IsWorkAfter J.sheet badge.now.list ticket.now }
    ensures { IfOk result (IsTrueOf J.sheet ticket.now.piece) }
{
    let _ = badge;
    let played = Played::of(alloc, sheet, &ticket.piece.season)?;
    let mut worker = ZoneSolver::new(alloc, &played)?;
    worker.solve(
        &ticket.piece.question,
        ticket.piece.zone.literals.as_slice(),
    )
}

/// What is found at a ticket; nothing if memory runs out.
pub fn found_at<J: Job>(alloc: Global, sheet: &Sheet, badge: &WorkBadge<J>, ticket: &Ticket) -> Done
    requires of_job { sheet.now ≡ J.sheet }
    requires limits { IsWithinLimits sheet.now }
    requires work { IsWorkAfter J.sheet badge.now.list ticket.now }
    ensures { IsTrueDone J.sheet result }
{
    let _ = badge;
    match work(alloc, sheet, &ticket.piece) {
        Ok(done) => done,
        Err(OutOfMemory) => Done::Undone,
    }
}

/// Drops a ticket.
pub fn lose(ticket: Ticket) {
    let Ticket {
        number: _,
        epoch: _,
        place: _,
        piece: _,
    } = ticket;
}
