//! Work in the pool itself, in one hold of the lock, without a ticket.

ghost use Rattle.std.specs.Prelude.{◌≡◌, IfNone, IfSome, false, length};
ghost use mathlib.Core.List.{IsPrefix};
ghost use Rattle.league_core.specs.game.Seasons.{season_after};
ghost use Rattle.branch_pool.specs.inside.Runs.{TakesTurn};

use crate::guarded::Guarded;
use crate::job::Job;
use crate::lock::PoolLock;
use crate::work_badge::WorkBadge;
use branch_pool::Turn;
use epoch_cancel::{EpochWord, seen};
use reason_core::Solver;
use std::sync::Wait;

impl<J: Job> Guarded<J> {
    // One turn of work in the pool, by a solver for the season that the badge has seen, after so
    // many events; the badge is shown all events of the pool. Nothing if an event may come or has
    // come since, or if the one who reports is busy.
    pub fn work<W: Solver>(
        &mut self,
        word: &EpochWord,
        badge: &mut WorkBadge<J>,
        epoch: u64,
        solver: &mut W,
    ) -> Option<Turn>
        requires word { word.now ≡ J.table }
        requires epoch { epoch ≡ length badge.old.list }
        requires sheet { W.sheet solver.old ≡ J.sheet }
        requires season { W.season solver.old ≡ season_after J.sheet badge.old.list }
        ensures turn { IfSome result (λ turn. TakesTurn self.old.pool turn self.new.pool) }
        ensures shut { IfSome result (λ turn. self.old.pool.is_open ≡ false) }
        ensures idle { IfSome result (λ turn. self.old.feeder_busy ≡ false) }
        ensures none { IfNone result (self.new ≡ self.old) }
        ensures still { IfSome result (λ turn. badge.new ≡ badge.old) }
        ensures begins { IsPrefix badge.old.list badge.new.list }
        ensures seen { badge.new ≡ record badge.old { list = self.new.pool.log } }
        ensures busy { self.new.feeder_busy ≡ self.old.feeder_busy }
        ensures same_sheet { W.sheet solver.new ≡ W.sheet solver.old }
        ensures same_season { W.season solver.new ≡ W.season solver.old }
    {
        seen(word, &mut self.owner, &mut badge.eye);
        if !self.is_shut || self.feeder_busy || self.pool.epoch() != epoch {
            return None;
        }
        self.pool.recall_invariant();
        Some(self.pool.work_next(solver))
    }
}

impl<J: Job> PoolLock<J> {
    /// One turn of work in the pool itself, by a solver for the season that the badge has seen,
    /// which is that after so many events. All others wait for the lock meanwhile, so it is for a
    /// worker that is the only one. `None` if the feed is not shut, or if a newer event has come:
    /// then nothing is worked on.
    pub fn work<R: Wait, W: Solver>(
        &self,
        rt: &R,
        badge: &mut WorkBadge<J>,
        epoch: u64,
        solver: &mut W,
    ) -> Option<Turn>
        requires epoch { epoch ≡ length badge.old.list }
        requires sheet { W.sheet solver.old ≡ J.sheet }
        requires season { W.season solver.old ≡ season_after J.sheet badge.old.list }
        ensures still { IfSome result (λ turn. badge.new ≡ badge.old) }
        ensures begins { IsPrefix badge.old.list badge.new.list }
        ensures seen { badge.new ≡ record badge.old { list = badge.new.list } }
        ensures same_sheet { W.sheet solver.new ≡ W.sheet solver.old }
        ensures same_season { W.season solver.new ≡ W.season solver.old }
    {
        let (turn, has_waiters) = {
            let mut held = self.hold(rt);
            let turn = held.work(&self.word, badge, epoch, solver);
            (turn, held.take_waiters())
        };
        self.wake(has_waiters);
        turn
    }
}
