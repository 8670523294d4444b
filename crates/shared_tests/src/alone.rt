//! Work in the pool itself by a worker that has a ticket, which it then gives back with what it
//! found, without a next one.

ghost use Rattle.std.specs.Prelude.{◌≡◌, length};
ghost use Rattle.league_core.specs.game.Seasons.{IsEventOf, season_after};
ghost use Rattle.league_core.specs.game.Sheets.{IsWithinLimits};
ghost use Rattle.pool_lock.specs.inside.Lends.{IsWorkAfter};

use crate::cases::{Case, ticket_of};
use crate::found::{finding_at, lose};
use crate::watched::watched;
use branch_pool::{Answer, Gave, Ticket, Turn};
use branch_rules::ZoneSolver;
use league_core::{Event, OutOfMemory, Sheet};
use pool_lock::{Front, Job, PoolLock, WorkBadge};
use reason_core::Solver;
use score_box::Played;
use std::alloc::Global;
use std::sync::Wait;
use std::test::Fail;

/// The worker asks for work in the pool, in one case before the feed is shut, in the other after.
///
/// The match is played, so there is one finish: a question either holds there, which is its
/// example, or is refuted, and there is nothing to split. So each takes one turn, and the ticket
/// has the first of the four: three turns are left, once work is not refused.
pub fn be_alone<J: Job, R: Wait>(
    rt: &R,
    alloc: Global,
    sheet: &Sheet,
    lock: &PoolLock<J>,
    front: &mut Front<J>,
    badge: &mut WorkBadge<J>,
    case: Case,
) -> Result<Option<(Gave, Gave)>, Fail>
    requires of_job { sheet.now ≡ J.sheet }
    requires limits { IsWithinLimits sheet.now }
{
    let ticket = ticket_of(rt, lock, badge)?;
    let turns = match case {
        Case::Alone => {
            lock.shut(rt, front);
            Some(3)
        }
        _ => None,
    };
    if ask(rt, alloc, sheet, lock, badge, ticket)? == (turns, Gave::Kept) {
        Ok(None)
    } else {
        Err("not so many turns, or not kept".into())
    }
}

/// The result comes after the ticket, and the feed is shut: work is refused, and what was found is
/// of no use.
pub fn be_late<J: Job, R: Wait>(
    rt: &R,
    alloc: Global,
    sheet: &Sheet,
    lock: &PoolLock<J>,
    front: &mut Front<J>,
    badge: &mut WorkBadge<J>,
    event: Event,
) -> Result<Option<(Gave, Gave)>, Fail>
    requires of_job { sheet.now ≡ J.sheet }
    requires limits { IsWithinLimits sheet.now }
    requires may_be { IsEventOf (season_after J.sheet front.old) event }
{
    lock.feeder_idle(rt, front);
    let ticket = ticket_of(rt, lock, badge)?;
    let told = lock.report(rt, front, event).is_ok();
    lock.shut(rt, front);
    let asked = ask(rt, alloc, sheet, lock, badge, ticket)?;
    if told && asked == (None, Gave::Stale { epoch: 1 }) {
        Ok(None)
    } else {
        Err("not told, or worked, or not stale".into())
    }
}

// How many turns of work there are in the pool, and what becomes of the ticket, which then goes
// back with what was found at its piece.
fn ask<J: Job, R: Wait>(
    rt: &R,
    alloc: Global,
    sheet: &Sheet,
    lock: &PoolLock<J>,
    badge: &mut WorkBadge<J>,
    ticket: Ticket,
) -> Result<(Option<u32>, Gave), Fail>
    requires of_job { sheet.now ≡ J.sheet }
    requires limits { IsWithinLimits sheet.now }
    requires work { IsWorkAfter J.sheet badge.old.list ticket }
{
    match finding_at(alloc, sheet, badge, &ticket) {
        Ok(finding) => {
            let turns = turns_at(rt, alloc, sheet, lock, badge, &ticket);
            let gave = lock.give(rt, badge, ticket, Some(finding));
            Ok((turns?, gave))
        }
        Err(OutOfMemory) => {
            lose(ticket);
            Err("no memory".into())
        }
    }
}

// The turns of work by a solver for the season of a ticket.
fn turns_at<J: Job, R: Wait>(
    rt: &R,
    alloc: Global,
    sheet: &Sheet,
    lock: &PoolLock<J>,
    badge: &mut WorkBadge<J>,
    ticket: &Ticket,
) -> Result<Option<u32>, Fail>
    requires of_job { sheet.now ≡ J.sheet }
    requires limits { IsWithinLimits sheet.now }
    requires work { IsWorkAfter J.sheet badge.old.list ticket.now }
{
    let played = Played::of(alloc, sheet, &ticket.piece.season)?;
    let mut solver = ZoneSolver::new(alloc, &played)?;
    turns_by(rt, lock, badge, ticket.epoch, &mut solver)
}

// How often the solver works in the pool before there is nothing to work on; nothing if it is
// refused.
fn turns_by<J: Job, R: Wait, W: Solver>(
    rt: &R,
    lock: &PoolLock<J>,
    badge: &mut WorkBadge<J>,
    epoch: u64,
    solver: &mut W,
) -> Result<Option<u32>, Fail>
    requires epoch { epoch ≡ length badge.old.list }
    requires sheet { W.sheet solver.old ≡ J.sheet }
    requires season { W.season solver.old ≡ season_after J.sheet badge.old.list }
{
    for turns in 0..9 {
        match lock.work(rt, badge, epoch, solver) {
            Some(Turn::Worked) => {}
            Some(Turn::Nothing) => return Ok(Some(turns)),
            Some(Turn::OutOfMemory) => return Err("no memory".into()),
            None => return Ok(None),
        }
    }
    Err("no end".into())
}

#[test]
fn work_in_the_pool_waits_until_the_feed_is_shut(rt: HostRuntime) -> Result<(), Fail> {
    let round = watched(&rt, Case::Early)?;
    assert_eq!(rt;
        (round.first_two, round.last_two),
        (
            Some((Answer::Won, Answer::NotYet)),
            Some((Answer::NotYet, Answer::NotYet))
        )
    );
    Ok(())
}

#[test]
fn all_is_worked_out_in_the_pool_once_the_feed_is_shut(rt: HostRuntime) -> Result<(), Fail> {
    let round = watched(&rt, Case::Alone)?;
    assert_eq!(rt;
        (round.first_two, round.last_two, round.out),
        (
            Some((Answer::Won, Answer::Refuted)),
            Some((Answer::Refuted, Answer::Won)),
            0
        )
    );
    Ok(())
}

#[test]
fn no_work_is_done_in_the_pool_by_who_missed_a_result(rt: HostRuntime) -> Result<(), Fail> {
    let round = watched(&rt, Case::Late)?;
    assert_eq!(rt;
        (
            round.first_two,
            round.last_two,
            round.is_told,
            round.are_open
        ),
        (
            Some((Answer::NotYet, Answer::NotYet)),
            Some((Answer::NotYet, Answer::NotYet)),
            true,
            true
        )
    );
    Ok(())
}
