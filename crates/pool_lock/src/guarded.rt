//! What lies under the lock.

ghost use Rattle.std.specs.Prelude.{◌≡◌, ◌↔◌, ◌++◌, ◌∷◌, [], length, Err, IfOk, OnOk, OnErr, false};
ghost use Rattle.std.specs.Prelude.{true, ◌+◌, ◌<◌, IsTrue};
ghost use mathlib.Core.List.{IsPrefix};
ghost use Rattle.league_core.specs.inside.Codes.{has_code};
ghost use Rattle.league_core.specs.game.Limits.{most_events};
ghost use Rattle.league_core.specs.game.Seasons.{IsEventOf, season_after};
ghost use Rattle.branch_pool.specs.declared.ticket.Took.TheVariants as took;
ghost use Rattle.branch_pool.specs.inside.Calls.{IsFitIfLent, Taking};
ghost use Rattle.branch_pool.specs.inside.Steps.{Changes, pool_opened, pool_shut, pool_recalled};
ghost use Rattle.epoch_cancel.specs.inside.Seats.{seat_of, seat_told};
ghost use Rattle.pool_lock.specs.inside.Badges.{says_over};
ghost use Rattle.pool_lock.specs.inside.Lends.{TakesWorkAfter, TakesFrom};

use crate::front::Front;
use crate::job::Job;
use crate::work_badge::WorkBadge;
use branch_pool::{ChangeStop, Pool, Took};
use epoch_cancel::{EpochWord, Owner, seen, tell};
use league_core::{Event, Season};
use std::marker::Model;
use std::sync::ledger::{Blank, Book};

// The pool, beside the seat that announces its changes, the book that counts them, and whether the
// one who reports is busy. Contracts see it as the pool with that.
#[derive(Drop)]
pub struct Guarded<J: Job> {
    pub(crate) pool: Pool,
    pub(crate) owner: Owner,
    changes: Book<J>,
    pub(crate) feeder_busy: bool,
    // no event will come
    pub(crate) is_shut: bool,
    // a worker may wait for something to change
    has_waiters: bool,
}

impl<J: Job> Model for Guarded<J> {
    ghost use Rattle.std.specs.Prelude.{◌≡◌, length, false, true};
    ghost use Rattle.pool_lock.specs.inside.States.{GuardedView};
    ghost use Rattle.branch_pool.specs.contracts.question_state.QuestionState as seat;
    ghost use Rattle.branch_pool.specs.contracts.question_state.Loan as loan;
    ghost use Rattle.std.specs.Coded.{codes};

    ghost Value = { GuardedView };

    ghost coded = { Prim.hlevel (codes, seat.the_row.coded, loan.the_row.coded) };

    ghost view = { λ held. record { pool = held.pool; feeder_busy = held.feeder_busy } };

    ghost invariant = { λ held.
        (held.owner.table ≡ J.table) × (held.owner.list ≡ held.pool.log)
        × (held.changes.total ≡ length held.pool.log)
        × (held.pool.sheet ≡ J.sheet) × (held.pool.questions ≡ J.questions)
        × (held.is_shut ≡ true → held.pool.is_open ≡ false) };
}

impl<J: Job> Guarded<J> {
    // A pool whose feed is opened, with the seat that announces its changes, and the front of the
    // one who reports them, who begins busy.
    pub fn new(
        blank: Blank,
        owner: Owner,
        front: epoch_cancel::Front,
        pool: Pool,
    ) -> (Guarded<J>, Front<J>)
        requires ledger { blank.name ≡ J.name }
        requires parts { blank.parts ≡ J.parts }
        requires one_part { blank.parts ≡ 1 }
        requires owner { owner ≡ seat_of J.table pool.log }
        requires front { front ≡ seat_of J.table pool.log }
        requires sheet { pool.sheet ≡ J.sheet }
        requires questions { pool.questions ≡ J.questions }
        ensures opened { result.0 ≡ record { pool = pool_opened pool; feeder_busy = true } }
        ensures front { result.1 ≡ pool.log }
    {
        let (mut changes, mut share) = blank.open::<J>();
        changes.add(&mut share, pool.epoch());
        let mut pool = pool;
        pool.start();
        let held = Guarded {
            pool,
            owner,
            changes,
            feeder_busy: true,
            is_shut: false,
            has_waiters: false,
        };
        (
            held,
            Front {
                inner: front,
                share,
            },
        )
    }

    // Takes from the pool, and shows the worker all events of the pool. While the one who
    // reports is busy there is nothing to take.
    pub fn take(&mut self, word: &EpochWord, badge: &mut WorkBadge<J>) -> Took
        requires word { word.now ≡ J.table }
        ensures taking { self.old.feeder_busy ≡ false → Taking self.old.pool result self.new.pool }
        ensures unchanged { self.old.feeder_busy ≡ true
            → (result ≡ took.Rest) × (self.new ≡ self.old) }
        ensures busy { self.new.feeder_busy ≡ self.old.feeder_busy }
        ensures work { TakesWorkAfter J.sheet badge.new.list result }
        ensures lent { TakesFrom J.sheet J.questions badge.new.list result }
        ensures begins { IsPrefix badge.old.list badge.new.list }
        ensures seen { badge.new ≡ record badge.old {
          list = self.new.pool.log;
          is_over = says_over result;
        } }
    {
        self.pool.recall_invariant();
        let took = self.take_next(&mut badge.spare);
        self.pool.recall_invariant();
        seen(word, &mut self.owner, &mut badge.eye);
        badge.note(&took);
        took
    }

    pub fn take_next(&mut self, spare: &mut Option<Season>) -> Took
        ensures taking { self.old.feeder_busy ≡ false → Taking self.old.pool result self.new.pool }
        ensures unchanged { self.old.feeder_busy ≡ true
            → (result ≡ took.Rest) × (self.new ≡ self.old) }
        ensures busy { self.new.feeder_busy ≡ self.old.feeder_busy }
        ensures fit { IsFitIfLent self.new.pool result }
        ensures log { self.new.pool.log ≡ self.old.pool.log }
    {
        if self.feeder_busy {
            return Took::Rest;
        }
        self.pool.take_with(spare)
    }

    // A worker waits for something to change.
    pub fn await_change(&mut self)
        ensures { self.new ≡ self.old }
    {
        self.has_waiters = true;
    }

    // Whether a worker may wait. Those who do are to be woken then.
    pub fn take_waiters(&mut self) -> bool
        ensures { self.new ≡ self.old }
    {
        let has_waiters = self.has_waiters;
        self.has_waiters = false;
        has_waiters
    }

    // Reports an event to the pool, announces it, and counts it; then the one who reports is busy.
    // After a refusal all is as before.
    pub fn change(
        &mut self,
        word: &EpochWord,
        front: &mut Front<J>,
        event: Event,
    ) -> Result<u64, ChangeStop>
        requires word { word.now ≡ J.table }
        requires may_be { IsEventOf (season_after J.sheet front.old) event }
        ensures ok { OnOk result (Changes self.old.pool event self.new.pool) }
        ensures busy { OnOk result (self.new.feeder_busy ≡ true) }
        ensures front { OnOk result (front.new ≡ front.old ++ event ∷ []) }
        ensures same { OnOk result (front.new ≡ self.new.pool.log) }
        ensures epoch { IfOk result (λ epoch. epoch ≡ length front.new) }
        ensures full { (result ≡ Err ChangeStop.LogFull) ↔ (length front.old ≡ most_events) }
        ensures err { OnErr result (self.new ≡ self.old) }
        ensures kept { OnErr result (front.new ≡ front.old) }
    {
        self.changes.audit(&mut front.share);
        self.pool.recall_invariant();
        let epoch = self.pool.change(event)?;
        announce(word, &mut self.owner, &mut self.changes, front, &event);
        self.feeder_busy = true;
        Ok(epoch)
    }

    // The one who reports has nothing in hand.
    pub fn feeder_idle(&mut self)
        ensures { self.new ≡ record self.old { feeder_busy = false } }
    {
        self.feeder_busy = false;
    }

    // No event will come, and so nothing is in hand.
    pub fn shut(&mut self)
        ensures { self.new ≡ record { pool = pool_shut self.old.pool; feeder_busy = false } }
    {
        self.pool.shut();
        self.feeder_busy = false;
        self.is_shut = true;
    }

    // The pool, with all that was out at home again. Its log is what the front reported.
    pub fn finish(self, word: EpochWord, front: Front<J>) -> Pool
        requires word { word ≡ J.table }
        ensures recalled { result ≡ pool_recalled self.pool }
        ensures log { result.log ≡ front }
        ensures sheet { result.sheet ≡ J.sheet }
        ensures questions { result.questions ≡ J.questions }
    {
        let mut held = self;
        let mut front = front;
        held.changes.audit(&mut front.share);
        word.close(held.owner, front.inner);
        held.pool.recall();
        held.pool
    }
}

// Announces an event to the one who reports it, and counts it.
fn announce<J: Job>(
    word: &EpochWord,
    owner: &mut Owner,
    changes: &mut Book<J>,
    front: &mut Front<J>,
    event: &Event,
)
    requires seats { (word.now ≡ J.table) × (owner.old.table ≡ J.table) }
    requires level { length front.old ≡ length owner.old.list }
    requires room { length owner.old.list < most_events }
    requires code { IsTrue (has_code event.now) }
    ensures equal { front.old ≡ owner.old.list }
    ensures owner { owner.new ≡ seat_told owner.old event.now }
    ensures front { front.new ≡ front.old ++ event.now ∷ [] }
    ensures counted { changes.new.total ≡ changes.old.total + 1 }
{
    tell(word, owner, &mut front.inner, event);
    changes.add(&mut front.share, 1);
}
