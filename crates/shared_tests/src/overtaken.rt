//! A result that comes while tickets are out.

ghost use Rattle.std.specs.Prelude.{◌≡◌, IfOk};
ghost use Rattle.league_core.specs.game.Seasons.{IsEventOf, season_after};
ghost use Rattle.league_core.specs.game.Sheets.{IsWithinLimits};
ghost use Rattle.reason_core.specs.inside.Dones.{IsTrueOf};

use crate::cases::ticket_of;
use crate::found::{finding_at, lose};
use branch_pool::{Gave, Ticket, Took};
use league_core::{Event, OutOfMemory, Sheet};
use pool_lock::{Front, Job, PoolLock, WorkBadge};
use reason_core::{Done, Finding};
use std::alloc::Global;
use std::sync::Wait;
use std::test::Fail;

/// The result comes while both tickets are out, and then both are given back. Who gives the second
/// one back asks for more, and is lent nothing before the one who reports has nothing in hand.
pub fn be_overtaken<J: Job, R: Wait>(
    rt: &R,
    alloc: Global,
    sheet: &Sheet,
    lock: &PoolLock<J>,
    front: &mut Front<J>,
    one: &mut WorkBadge<J>,
    two: &mut WorkBadge<J>,
    event: Event,
) -> Result<Option<(Gave, Gave)>, Fail>
    requires of_job { sheet.now ≡ J.sheet }
    requires limits { IsWithinLimits sheet.now }
    requires may_be { IsEventOf (season_after J.sheet front.old) event }
{
    lock.feeder_idle(rt, front);
    let first = ticket_of(rt, lock, one)?;
    match ticket_of(rt, lock, two) {
        Ok(second) => {
            let finding = finding_at(alloc, sheet, two, &second);
            let told = lock.report(rt, front, event).is_ok();
            let gave = give_undone(rt, lock, one, first);
            let other = swap_for_rest(rt, lock, two, second, finding)?;
            lock.feeder_idle(rt, front);
            if told && next_number(rt, lock, one)? == 0 {
                Ok(Some((gave, other)))
            } else {
                Err("not told, or not all at home".into())
            }
        }
        Err(fail) => {
            lose(first);
            Err(fail)
        }
    }
}

fn give_undone<J: Job, R: Wait>(
    rt: &R,
    lock: &PoolLock<J>,
    badge: &mut WorkBadge<J>,
    ticket: Ticket,
) -> Gave {
    lock.back(rt, badge, ticket, Done::Undone)
}

// Gives a ticket back with what was found, and asks for the next: there is none now.
fn swap_for_rest<J: Job, R: Wait>(
    rt: &R,
    lock: &PoolLock<J>,
    badge: &mut WorkBadge<J>,
    ticket: Ticket,
    finding: Result<Finding, OutOfMemory>,
) -> Result<Gave, Fail>
    requires { IfOk finding (IsTrueOf J.sheet ticket.piece) }
{
    match finding {
        Ok(finding) => match lock.swap(rt, badge, ticket, finding) {
            (gave, Took::Rest) => Ok(gave),
            (_, Took::Lent(next)) => {
                lose(next);
                Err("lent while the one who reports is busy".into())
            }
            (_, Took::Over | Took::OutOfMemory) => Err("not at rest".into()),
        },
        Err(OutOfMemory) => {
            lose(ticket);
            Err("no memory".into())
        }
    }
}

// The number of what is lent next; it goes back.
fn next_number<J: Job, R: Wait>(
    rt: &R,
    lock: &PoolLock<J>,
    badge: &mut WorkBadge<J>,
) -> Result<u64, Fail> {
    let ticket = ticket_of(rt, lock, badge)?;
    let number = ticket.number;
    let _ = give_undone(rt, lock, badge, ticket);
    Ok(number)
}
