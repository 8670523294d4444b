//! A ticket is given back through the lock.

ghost use Rattle.std.specs.Prelude.{◌≡◌, IfSome, None};
ghost use mathlib.Core.List.{IsPrefix};
ghost use Rattle.league_core.specs.declared.sheet.Sheet.{Sheet};
ghost use Rattle.reason_core.specs.inside.Dones.{IsFor, IsTrueDone, IsTrueOf};
ghost use Rattle.reason_core.specs.inside.Dones.{done_of, done_with, finding_of};
ghost use Rattle.branch_pool.specs.inside.Calls.{LeavesOver};
ghost use Rattle.branch_pool.specs.inside.Steps.{Gives};
ghost use Rattle.pool_lock.specs.inside.Badges.{says_over};
ghost use Rattle.pool_lock.specs.inside.Lends.{TakesWorkAfter, TakesFrom, IsEpochSaidAfter};
ghost use Rattle.pool_lock.specs.inside.States.{Swaps};

use crate::guarded::Guarded;
use crate::job::Job;
use crate::lock::PoolLock;
use crate::work_badge::WorkBadge;
use branch_pool::{Discarded, Gave, Ticket, Took};
use epoch_cancel::{EpochWord, seen};
use reason_core::{Done, Finding, Piece};
use std::sync::Wait;

impl<J: Job> Guarded<J> {
    // Gives back to the pool what was found at a ticket's piece, and shows the worker all events of
    // the pool. Returns what the pool no longer needs, so the caller can drop it outside the lock.
    pub fn give(
        &mut self,
        word: &EpochWord,
        badge: &mut WorkBadge<J>,
        ticket: Ticket,
        finding: Option<Finding>,
    ) -> (Gave, Discarded)
        requires word { word.now ≡ J.table }
        requires sound { IfSome finding (IsTrueOf J.sheet ticket.piece) }
        ensures gives { Gives self.old.pool ticket (done_with ticket.piece finding) result.0
            self.new.pool }
        ensures busy { self.new.feeder_busy ≡ self.old.feeder_busy }
        ensures leaves { LeavesOver self.old.pool ticket finding result.0 result.1 }
        ensures epoch { IsEpochSaidAfter badge.new.list ticket result.0 }
        ensures begins { IsPrefix badge.old.list badge.new.list }
        ensures seen { badge.new ≡ record badge.old { list = self.new.pool.log } }
    {
        let (gave, left) = self.pool.give_leaving(ticket, finding);
        seen(word, &mut self.owner, &mut badge.eye);
        (gave, left)
    }

    // Gives back what was found at a ticket's piece, takes from the pool, and shows the worker all
    // events of the pool. Returns what nobody needs any more; the badge keeps the ticket's season.
    pub fn swap(
        &mut self,
        word: &EpochWord,
        badge: &mut WorkBadge<J>,
        ticket: Ticket,
        finding: Finding,
    ) -> (Gave, Took, Discarded)
        requires word { word.now ≡ J.table }
        requires sound { IsTrueOf J.sheet ticket.piece finding }
        ensures swaps { Swaps self.old ticket (done_of ticket.piece finding) result.0 result.1
            self.new }
        ensures epoch { IsEpochSaidAfter badge.new.list ticket result.0 }
        ensures work { TakesWorkAfter J.sheet badge.new.list result.1 }
        ensures lent { TakesFrom J.sheet J.questions badge.new.list result.1 }
        ensures begins { IsPrefix badge.old.list badge.new.list }
        ensures seen { badge.new ≡ record badge.old {
          list = self.new.pool.log;
          is_over = says_over result.1;
        } }
    {
        let (gave, left) = self.pool.give_leaving(ticket, Some(finding));
        let left = badge.keep(left);
        self.pool.recall_invariant();
        let took = self.take_next(&mut badge.spare);
        self.pool.recall_invariant();
        seen(word, &mut self.owner, &mut badge.eye);
        badge.note(&took);
        (gave, took, left)
    }
}

impl<J: Job> PoolLock<J> {
    /// Gives a ticket back with what was found at its piece, if something was. What is kept is of
    /// the epoch of all events that the badge has then seen, and what is stale comes with that
    /// epoch.
    pub fn give<R: Wait>(
        &self,
        rt: &R,
        badge: &mut WorkBadge<J>,
        ticket: Ticket,
        finding: Option<Finding>,
    ) -> Gave
        requires sound { IfSome finding (IsTrueOf J.sheet ticket.piece) }
        ensures epoch { IsEpochSaidAfter badge.new.list ticket result }
        ensures begins { IsPrefix badge.old.list badge.new.list }
        ensures seen { badge.new ≡ record badge.old { list = badge.new.list } }
    {
        let (gave, left, has_waiters) = {
            let mut held = self.hold(rt);
            let (gave, left) = held.give(&self.word, badge, ticket, finding);
            (gave, left, held.take_waiters())
        };
        self.wake(has_waiters);
        let _left = badge.keep(left);
        gave
    }

    /// Gives a ticket back with what was done, as `give` does; if that is about another piece than
    /// the ticket's, it counts as nothing done.
    pub fn back<R: Wait>(
        &self,
        rt: &R,
        badge: &mut WorkBadge<J>,
        ticket: Ticket,
        done: Done,
    ) -> Gave
        requires sound { IsTrueDone J.sheet done }
        ensures epoch { IsEpochSaidAfter badge.new.list ticket result }
        ensures begins { IsPrefix badge.old.list badge.new.list }
        ensures seen { badge.new ≡ record badge.old { list = badge.new.list } }
    {
        let finding = fitting(done, &ticket.piece);
        self.give(rt, badge, ticket, finding)
    }

    /// Gives a ticket back with what was found at its piece, and takes the next one, both in one
    /// hold of the lock. What became of the ticket, and what is lent, is by all events that the
    /// badge has then seen; it knows whether all is over. If there is no work now it does not wait
    /// for some, as `lend` does.
    pub fn swap<R: Wait>(
        &self,
        rt: &R,
        badge: &mut WorkBadge<J>,
        ticket: Ticket,
        finding: Finding,
    ) -> (Gave, Took)
        requires sound { IsTrueOf J.sheet ticket.piece finding }
        ensures epoch { IsEpochSaidAfter badge.new.list ticket result.0 }
        ensures work { TakesWorkAfter J.sheet badge.new.list result.1 }
        ensures lent { TakesFrom J.sheet J.questions badge.new.list result.1 }
        ensures begins { IsPrefix badge.old.list badge.new.list }
        ensures seen { badge.new ≡ record badge.old {
          list = badge.new.list;
          is_over = says_over result.1;
        } }
    {
        let (gave, took, _left, has_waiters) = {
            let mut held = self.hold(rt);
            let (gave, took, left) = held.swap(&self.word, badge, ticket, finding);
            (gave, took, left, held.take_waiters())
        };
        self.wake(has_waiters);
        (gave, took)
    }
}

// What was found, if it is about the piece, or else nothing.
#[tactic(auto, using(reason_core::proofs::DoneLemmas::finding_is_true))]
fn fitting(done: Done, piece: &Piece) -> Option<Finding>
    ensures sound { (sheet : Sheet) → IsTrueDone sheet done
        → IfSome result (IsTrueOf sheet piece.now) }
    ensures done { IsFor done piece.now → result ≡ finding_of done }
    ensures undone { (IsFor done piece.now → ⊥) → result ≡ None }
{
    if done.is_for(piece) {
        done.into_finding()
    } else {
        None
    }
}
