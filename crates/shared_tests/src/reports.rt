//! A report to the lock round a pool that was worked on, while memory runs out.

ghost use Rattle.std.specs.Prelude.{◌≡◌, All, IfOk, OnOk};
ghost use Rattle.league_core.specs.game.Seasons.{IsEventOf, season_after};
ghost use Rattle.branch_pool.specs.inside.States.{out_count};
ghost use Rattle.epoch_cancel.specs.inside.Seats.{seat_of};
ghost use Rattle.pool_lock.specs.inside.Lends.{IsEyeAfter};

use crate::pools::{all_nodes, is_at, is_split, stays, worked};
use crate::rounds::{Seated, may_be_told, take_seats};
use branch_pool::Pool;
use league_core::{Event, Score, TreeNode};
use pool_lock::{Front, Job, PoolLock, WorkBadge};
use std::alloc::Global;
use std::marker::Brand;
use std::sync::Wait;
use std::sync::ledger::Blank;
use std::test::Fail;

const RESULT: Event = Event::Set {
    fixture: 0,
    score: Score { home: 1, away: 0 },
};

/// What a report came to: whether it was taken, and which epoch the word told then and at the end.
#[derive(Clone, Copy)]
struct Told {
    is_taken: bool,
    then: Option<u64>,
    at_last: Option<u64>,
}

/// The nodes of a pool, and a word after its events with the seats of its lock.
#[derive(Drop)]
struct Beside {
    nodes: Vec<TreeNode>,
    seated: Seated,
}

// What a pool that may take the result has beside it.
fn made_beside(alloc: Global, pool: &Pool) -> Result<Beside, Fail>
    ensures owner { IfOk result
        (λ made. made.seated.owner ≡ seat_of made.seated.word pool.now.log) }
    ensures front { IfOk result
        (λ made. made.seated.front ≡ seat_of made.seated.word pool.now.log) }
    ensures eyes { IfOk result
        (λ made. All (IsEyeAfter made.seated.word pool.now.log) made.seated.eyes.items) }
    ensures may_be { OnOk result
        (IsEventOf (season_after pool.now.sheet pool.now.log) RESULT) }
{
    if !may_be_told(pool, &RESULT) {
        return Err("no match".into());
    }
    let seated = take_seats(alloc, pool.log(), 1)?;
    let nodes = all_nodes(alloc, pool)?;
    Ok(Beside { nodes, seated })
}

// Whether the pool, whose first tree was split, has the result if that was taken, and else has the
// nodes of before, and whether the word tells the same. A report that is refused is made once more
// if so wished.
fn reports_or_stays<R: Wait>(rt: &R, alloc: Global, again: bool) -> Result<bool, Fail> {
    let pool = worked(alloc)?;
    let Beside { nodes, seated } = made_beside(alloc, &pool)?;
    let nodes = nodes.as_slice();
    reported_as::<Brand, R>(rt, alloc, Blank::new(1), seated, pool, nodes, again)
}

fn reported_as<J: Job, R: Wait>(
    rt: &R,
    alloc: Global,
    blank: Blank,
    seated: Seated,
    pool: Pool,
    nodes: &[TreeNode],
    again: bool,
) -> Result<bool, Fail>
    requires ledger { blank.name ≡ J.name }
    requires parts { blank.parts ≡ J.parts }
    requires one_part { blank.parts ≡ 1 }
    requires word { seated.word ≡ J.table }
    requires owner { seated.owner ≡ seat_of seated.word pool.log }
    requires front { seated.front ≡ seat_of seated.word pool.log }
    requires eyes { All (IsEyeAfter seated.word pool.log) seated.eyes.items }
    requires sheet { pool.sheet ≡ J.sheet }
    requires questions { pool.questions ≡ J.questions }
    requires home { out_count pool.loans ≡ 0 }
    requires may_be { IsEventOf (season_after J.sheet pool.log) RESULT }
{
    let Seated {
        word,
        owner,
        front,
        eyes,
    } = seated;
    let (lock, mut front, mut badges) = PoolLock::<J>::new(
        alloc, blank, word, owner, front, eyes, pool,
    )?;
    let told = report_by(rt, &lock, &mut front, badges.as_mut_slice(), again);
    let pool = lock.close(front);
    is_right(alloc, &pool, told, nodes, again)
}

// The report, and what the word tells the one worker.
fn report_by<J: Job, R: Wait>(
    rt: &R,
    lock: &PoolLock<J>,
    front: &mut Front<J>,
    badges: &mut [WorkBadge<J>],
    again: bool,
) -> Option<Told>
    requires may_be { IsEventOf (season_after J.sheet front.old) RESULT }
{
    match badges {
        [badge] => Some(report(rt, lock, front, badge, again)),
        _ => None,
    }
}

fn report<J: Job, R: Wait>(
    rt: &R,
    lock: &PoolLock<J>,
    front: &mut Front<J>,
    badge: &mut WorkBadge<J>,
    again: bool,
) -> Told
    requires may_be { IsEventOf (season_after J.sheet front.old) RESULT }
{
    let is_taken = lock.report(rt, front, RESULT).is_ok();
    let then = lock.cancelled(badge, 0);
    if again && !is_taken {
        let _ = lock.report(rt, front, RESULT);
    }
    Told {
        is_taken,
        then,
        at_last: lock.cancelled(badge, 0),
    }
}

// The word names the event from the report on if that was taken, and else not before it was
// reported again.
fn is_told_or_as_before(pool: &Pool, told: Told, again: bool) -> bool {
    let first = if told.is_taken { Some(1u64) } else { None };
    let last = if again { Some(1) } else { first };
    told.then == first && told.at_last == last && is_at(pool, last.unwrap_or(0), 0, last.is_some())
}

fn is_right(
    alloc: Global,
    pool: &Pool,
    told: Option<Told>,
    nodes: &[TreeNode],
    again: bool,
) -> Result<bool, Fail> {
    let told = told.ok_or("no badge")?;
    let is_told = is_split(pool, nodes) && is_told_or_as_before(pool, told, again);
    Ok(is_told && (told.at_last.is_some() || stays(alloc, pool, nodes)?))
}

#[test]
fn a_report_leaves_a_pool_that_was_worked_on(rt: HostRuntime) -> Result<(), Fail> {
    assert!(rt; reports_or_stays(&rt, rt.alloc(), false)?);
    Ok(())
}

#[test]
fn a_report_that_was_refused_is_taken_again(rt: HostRuntime) -> Result<(), Fail> {
    assert!(rt; reports_or_stays(&rt, rt.alloc(), true)?);
    Ok(())
}
