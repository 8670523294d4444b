//! What two workers do with the first two questions, and when the result is reported.

ghost use Rattle.std.specs.Prelude.{◌≡◌, IfOk};
ghost use Rattle.league_core.specs.game.Seasons.{IsEventOf, season_after};
ghost use Rattle.league_core.specs.game.Sheets.{IsWithinLimits};
ghost use Rattle.pool_lock.specs.inside.Lends.{IsWorkAfter};

use crate::alone::{be_alone, be_late};
use crate::found::{finding_at, found_at, lose};
use crate::overtaken::be_overtaken;
use crate::woken::be_woken;
use branch_pool::{Gave, Ticket, Took};
use league_core::{Event, OutOfMemory, Score, Sheet};
use pool_lock::{Front, Job, LentOut, PoolLock, WorkBadge};
use reason_core::Done;
use std::alloc::Global;
use std::sync::Wait;
use std::test::Fail;
use std::thread::Threads;

#[derive(Clone, Copy)]
pub enum Case {
    /// Each works on its piece, and gives back what it found.
    Worked,
    /// One works on both pieces: it takes the second as it gives back what it found at the first.
    InTurn,
    /// The first gives back what was found at the piece of the second, who gives back nothing.
    OtherPiece,
    /// Neither gives back.
    Lost,
    /// The result comes while both tickets are out.
    Overtaken,
    /// Nothing is asked, and the feed is shut: the first worker is told that all is over.
    Shut,
    /// Nothing is asked, and the feed is shut while the first worker waits.
    Woken,
    /// One that has a ticket asks for work in the pool while the feed is not shut.
    Early,
    /// The same once the feed is shut.
    Alone,
    /// The same, if the result has come since it was lent its ticket.
    Late,
}

/// The result that is reported: 0:0 if it overtakes the workers, or else 1:0.
pub fn event_of(case: Case) -> Event {
    let home = match case {
        Case::Overtaken => 0,
        _ => 1,
    };
    Event::Set {
        fixture: 0,
        score: Score { home, away: 0 },
    }
}

/// Plays a case with two badges, and returns what became of the two tickets, if they were given
/// back.
pub fn meet<J: Job + Send + Sync, R: Threads + Wait + Sync>(
    rt: &R,
    alloc: Global,
    sheet: &Sheet,
    lock: &PoolLock<J>,
    front: &mut Front<J>,
    badges: &mut [WorkBadge<J>],
    event: Event,
    case: Case,
) -> Result<Option<(Gave, Gave)>, Fail>
    requires of_job { sheet.now ≡ J.sheet }
    requires limits { IsWithinLimits sheet.now }
    requires may_be { IsEventOf (season_after J.sheet front.old) event }
{
    match badges {
        [one, two] => match case {
            Case::Overtaken => be_overtaken(rt, alloc, sheet, lock, front, one, two, event),
            Case::Shut => {
                lock.shut(rt, front);
                if is_over(rt, lock, one) {
                    Ok(None)
                } else {
                    Err("not over".into())
                }
            }
            Case::Woken => be_woken(rt, lock, front, one),
            Case::Late => be_late(rt, alloc, sheet, lock, front, one, event),
            Case::Early | Case::Alone => {
                tell(rt, lock, front, one, event)?;
                lock.feeder_idle(rt, front);
                be_alone(rt, alloc, sheet, lock, front, one, case)
            }
            Case::Worked | Case::InTurn | Case::OtherPiece | Case::Lost => {
                tell(rt, lock, front, one, event)?;
                lock.feeder_idle(rt, front);
                play(rt, alloc, sheet, lock, one, two, case)
            }
        },
        _ => Err("not two badges".into()),
    }
}

// Reports the first event. If memory runs out the word is as before, and so are pool and
// front: the event can be reported again, and is the first one.
fn tell<J: Job, R: Wait>(
    rt: &R,
    lock: &PoolLock<J>,
    front: &mut Front<J>,
    badge: &mut WorkBadge<J>,
    event: Event,
) -> Result<(), Fail>
    requires may_be { IsEventOf (season_after J.sheet front.old) event }
{
    if lock.report(rt, front, event).is_ok() {
        return Ok(());
    }
    if lock.cancelled(badge, 0).is_some() {
        return Err("the word tells what the pool does not know".into());
    }
    match lock.report(rt, front, event) {
        Ok(1) => Ok(()),
        _ => Err("not the first event".into()),
    }
}

fn play<J: Job, R: Wait>(
    rt: &R,
    alloc: Global,
    sheet: &Sheet,
    lock: &PoolLock<J>,
    one: &mut WorkBadge<J>,
    two: &mut WorkBadge<J>,
    case: Case,
) -> Result<Option<(Gave, Gave)>, Fail>
    requires of_job { sheet.now ≡ J.sheet }
    requires limits { IsWithinLimits sheet.now }
{
    match case {
        Case::Worked => {
            let first = work_once(rt, alloc, sheet, lock, one)?;
            let second = work_once(rt, alloc, sheet, lock, two)?;
            Ok(Some((first, second)))
        }
        Case::InTurn => {
            let gave = work_twice(rt, alloc, sheet, lock, one)?;
            Ok(Some(gave))
        }
        Case::OtherPiece => {
            let first = ticket_of(rt, lock, one)?;
            let gave = swap(rt, alloc, sheet, lock, one, two, first)?;
            Ok(Some(gave))
        }
        _ => {
            lose(ticket_of(rt, lock, one)?);
            lose(ticket_of(rt, lock, two)?);
            Ok(None)
        }
    }
}

/// The ticket that a worker is lent.
pub fn ticket_of<J: Job, R: Wait>(
    rt: &R,
    lock: &PoolLock<J>,
    badge: &mut WorkBadge<J>,
) -> Result<Ticket, Fail>
    ensures { IfOk result (IsWorkAfter J.sheet badge.new.list) }
{
    match lock.lend(rt, badge) {
        Ok(LentOut::Work(ticket)) => Ok(ticket),
        Ok(LentOut::Over) => Err("over".into()),
        Err(OutOfMemory) => Err("no memory".into()),
    }
}

fn work_once<J: Job, R: Wait>(
    rt: &R,
    alloc: Global,
    sheet: &Sheet,
    lock: &PoolLock<J>,
    badge: &mut WorkBadge<J>,
) -> Result<Gave, Fail>
    requires of_job { sheet.now ≡ J.sheet }
    requires limits { IsWithinLimits sheet.now }
{
    let ticket = ticket_of(rt, lock, badge)?;
    let done = found_at(alloc, sheet, badge, &ticket);
    Ok(lock.back(rt, badge, ticket, done))
}

// The first ticket goes back with what was found at its piece, and the second one is taken with it.
fn work_twice<J: Job, R: Wait>(
    rt: &R,
    alloc: Global,
    sheet: &Sheet,
    lock: &PoolLock<J>,
    badge: &mut WorkBadge<J>,
) -> Result<(Gave, Gave), Fail>
    requires of_job { sheet.now ≡ J.sheet }
    requires limits { IsWithinLimits sheet.now }
{
    let ticket = ticket_of(rt, lock, badge)?;
    match finding_at(alloc, sheet, badge, &ticket) {
        Ok(finding) => match lock.swap(rt, badge, ticket, finding) {
            (gave, Took::Lent(next)) => {
                let done = found_at(alloc, sheet, badge, &next);
                Ok((gave, lock.back(rt, badge, next, done)))
            }
            (_, Took::Rest | Took::Over | Took::OutOfMemory) => Err("no next ticket".into()),
        },
        Err(OutOfMemory) => {
            lose(ticket);
            Err("no memory".into())
        }
    }
}

// The first ticket goes back with what was found at the second, and the second undone.
fn swap<J: Job, R: Wait>(
    rt: &R,
    alloc: Global,
    sheet: &Sheet,
    lock: &PoolLock<J>,
    one: &mut WorkBadge<J>,
    two: &mut WorkBadge<J>,
    first: Ticket,
) -> Result<(Gave, Gave), Fail>
    requires of_job { sheet.now ≡ J.sheet }
    requires limits { IsWithinLimits sheet.now }
{
    match ticket_of(rt, lock, two) {
        Ok(second) => {
            let done = found_at(alloc, sheet, two, &second);
            let gave = lock.back(rt, one, first, done);
            Ok((gave, lock.back(rt, two, second, Done::Undone)))
        }
        Err(fail) => {
            lose(first);
            Err(fail)
        }
    }
}

/// Whether nothing is lent any more.
pub fn is_over<J: Job, R: Wait>(rt: &R, lock: &PoolLock<J>, badge: &mut WorkBadge<J>) -> bool {
    match lock.lend(rt, badge) {
        Ok(LentOut::Over) => true,
        Ok(LentOut::Work(ticket)) => {
            lose(ticket);
            false
        }
        Err(OutOfMemory) => false,
    }
}
