//! The lock.

ghost use Rattle.std.specs.Prelude.{◌≡◌, ◌↔◌, ◌++◌, ◌∷◌, [], length, All, Err, IfOk, OnOk, OnErr};
ghost use mathlib.Core.List.{IsPrefix};
ghost use Rattle.league_core.specs.game.Limits.{most_events};
ghost use Rattle.league_core.specs.game.Seasons.{IsEventOf, season_after};
ghost use Rattle.branch_pool.specs.inside.States.{out_count};
ghost use Rattle.epoch_cancel.specs.inside.Seats.{IsCancelled, seat_of};
ghost use Rattle.pool_lock.specs.inside.Badges.{LooksBy, badges_for, lends_over};
ghost use Rattle.pool_lock.specs.inside.Lends.{IsEyeAfter, LendsFrom, LendsWorkAfter};

use crate::front::Front;
use crate::guarded::Guarded;
use crate::job::Job;
use crate::lent_out::LentOut;
use crate::work_badge::{WorkBadge, badges_of};
use branch_pool::{ChangeStop, Pool, Took};
use epoch_cancel::{EpochWord, Eye, Owner, cancelled};
use league_core::{Event, OutOfMemory};
use std::alloc::Global;
use std::hint::spin_loop;
use std::sync::ledger::Blank;
use std::sync::{Condvar, Mutex, MutexGuard, Wait};

/// How often a worker tries the lock before it waits for it.
const TRIES: u32 = 1000;

/// A pool that several threads work on while one reports what changes.
///
/// Workers take and give back by badges, the one who reports has the front, and all of them are of
/// the lock's job. Nothing is lent while the one who reports is busy: at first, and from each event
/// that is reported until it rests.
#[derive(Drop)]
pub struct PoolLock<J: Job> {
    pub(crate) word: EpochWord,
    held: Mutex<Guarded<J>>,
    // something has changed that a worker may wait for
    moved: Condvar,
    ghost named: { word ≡ J.table },
}

impl<J: Job> PoolLock<J> {
    /// A lock round a pool, whose feed is opened, with the front and a badge for each eye.
    ///
    /// All of them begin with the pool's log. If memory runs out, the pool is gone.
    pub fn new(
        alloc: Global,
        blank: Blank,
        word: EpochWord,
        owner: Owner,
        front: epoch_cancel::Front,
        eyes: Vec<Eye>,
        pool: Pool,
    ) -> Result<(PoolLock<J>, Front<J>, Vec<WorkBadge<J>>), OutOfMemory>
        requires ledger { blank.name ≡ J.name }
        requires parts { blank.parts ≡ J.parts }
        requires one_part { blank.parts ≡ 1 }
        requires word { word ≡ J.table }
        requires owner { owner ≡ seat_of word pool.log }
        requires front { front ≡ seat_of word pool.log }
        requires eyes { All (IsEyeAfter word pool.log) eyes.items }
        requires sheet { pool.sheet ≡ J.sheet }
        requires questions { pool.questions ≡ J.questions }
        requires home { out_count pool.loans ≡ 0 }
        ensures front { IfOk result (λ made. made.1 ≡ pool.log) }
        ensures badges { IfOk result (λ made. made.2.items ≡ badges_for eyes.items) }
    {
        let badges = badges_of(alloc, eyes)?;
        let (held, front) = Guarded::new(blank, owner, front, pool);
        let lock = PoolLock {
            word,
            held: Mutex::new(held),
            moved: Condvar::new(),
        };
        Ok((lock, front, badges))
    }

    #[tactic(auto, using(league_core::proofs::plain::Prefixes::prefix_onward))]
    /// Takes from the pool as soon as the one who reports rests and there is work, or all is over.
    /// The badge has then seen all events of the pool, and the ticket is work in the season
    /// after that, by the number and the place that `take` gave it; if all is over the badge knows
    /// it. If memory runs out there is no ticket, and the badge may have seen more.
    pub fn lend<R: Wait>(&self, rt: &R, badge: &mut WorkBadge<J>) -> Result<LentOut, OutOfMemory>
        ensures work { IfOk result (LendsWorkAfter J.sheet badge.new.list) }
        ensures lent { IfOk result (LendsFrom J.sheet J.questions badge.new.list) }
        ensures over { IfOk result (λ lent. badge.new.is_over ≡ lends_over lent) }
        ensures begins { IsPrefix badge.old.list badge.new.list }
        ensures seen { badge.new ≡ record badge.old {
          list = badge.new.list;
          is_over = badge.new.is_over;
        } }
    {
        let mut held = self.hold(rt);
        for _ in rt.forever() {
            match held.take(&self.word, badge) {
                Took::Lent(ticket) => return Ok(LentOut::Work(ticket)),
                Took::Over => return Ok(LentOut::Over),
                Took::OutOfMemory => return Err(OutOfMemory),
                Took::Rest => {
                    held.await_change();
                    held = self.moved.wait(rt, held);
                }
            }
        }
        unreachable!()
    }

    // Wakes those who wait, if somebody may.
    pub(crate) fn wake(&self, has_waiters: bool) {
        if has_waiters {
            self.moved.notify_all();
        }
    }

    // The held value. A worker that sleeps wakes late, and others then sleep behind it; so the lock
    // is tried for a while before.
    pub(crate) fn hold<R: Wait>(&self, rt: &R) -> MutexGuard<'_, Guarded<J>> {
        for _ in 0..TRIES {
            if let Some(held) = self.held.try_lock() {
                return held;
            }
            spin_loop();
        }
        self.held.lock(rt)
    }

    /// Looks at the word once, without the lock: if an event came after this epoch, the answer
    /// is the epoch by now.
    pub fn cancelled(&self, badge: &mut WorkBadge<J>, epoch: u64) -> Option<u64>
        ensures moves { LooksBy badge.old badge.new }
        ensures answer { IsCancelled result epoch badge.new.newest }
    {
        cancelled(&self.word, &mut badge.eye, epoch)
    }

    /// Reports an event, and returns the new epoch; nothing is lent then before `feeder_idle` or
    /// `shut`.
    /// After a refusal pool, word and front are as before.
    pub fn report<R: Wait>(
        &self,
        rt: &R,
        front: &mut Front<J>,
        event: Event,
    ) -> Result<u64, ChangeStop>
        requires may_be { IsEventOf (season_after J.sheet front.old) event }
        ensures ok { OnOk result (front.new ≡ front.old ++ event ∷ []) }
        ensures epoch { IfOk result (λ epoch. epoch ≡ length front.new) }
        ensures full { (result ≡ Err ChangeStop.LogFull) ↔ (length front.old ≡ most_events) }
        ensures err { OnErr result (front.new ≡ front.old) }
    {
        self.held.lock(rt).change(&self.word, front, event)
    }

    /// The one who reports, who has the front, has nothing in hand: workers may go on.
    pub fn feeder_idle<R: Wait>(&self, rt: &R, _front: &Front<J>) {
        let has_waiters = {
            let mut held = self.held.lock(rt);
            held.feeder_idle();
            held.take_waiters()
        };
        self.wake(has_waiters);
    }

    /// No event will come: workers may go on.
    pub fn shut<R: Wait>(&self, rt: &R, front: &mut Front<J>)
        ensures { front.new ≡ front.old }
    {
        let has_waiters = {
            let mut held = self.held.lock(rt);
            held.shut();
            held.take_waiters()
        };
        self.wake(has_waiters);
    }

    /// The pool, with each number at home. Its log is what the front has reported.
    pub fn close(self, front: Front<J>) -> Pool
        ensures log { result.log ≡ front }
        ensures home { out_count result.loans ≡ 0 }
        ensures sheet { result.sheet ≡ J.sheet }
        ensures questions { result.questions ≡ J.questions }
    {
        let held = self.held.into_inner();
        held.finish(self.word, front)
    }
}
