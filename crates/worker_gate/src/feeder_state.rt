//! What the feeder has of the feed, and of the lock.

ghost use Rattle.std.specs.Prelude.{◌≡◌, ◌++◌, ◌∷◌, [], ◌<◌, OnErr, OnOk, length, true};
ghost use Rattle.league_core.specs.game.Limits.{most_events};
ghost use Rattle.league_core.specs.game.Seasons.{IsEventOf};
ghost use Rattle.branch_pool.specs.inside.States.{out_count};
ghost use Rattle.plain_rounds.specs.inside.Feeding.{IsSeasonReported};

use branch_pool::Pool;
use league_core::{Event, OutOfMemory, Season};
use pool_lock::{Front, Job, PoolLock};
use std::sync::Wait;

/// The front of a lock, with the season that was reported so far, how many events told so, and
/// whether more may come.
#[derive(Drop)]
pub struct FeederState<J: Job> {
    pub front: Front<J>,
    pub season: Season,
    pub events: u64,
    pub is_shut: bool,
}

impl<J: Job> FeederState<J> {
    /// Reports an event that may come in the season.
    pub fn report<R: Wait>(
        &mut self,
        rt: &R,
        lock: &PoolLock<J>,
        event: Event,
    ) -> Result<(), OutOfMemory>
        requires reported { IsSeasonReported J.sheet self.old.front self.old.season
            self.old.events }
        requires may_be { IsEventOf self.old.season event }
        requires room { self.old.events < most_events }
        ensures front { OnOk result (self.new.front ≡ self.old.front ++ event ∷ []) }
        ensures reported { OnOk result
            (IsSeasonReported J.sheet self.new.front self.new.season self.new.events) }
    {
        match lock.report(rt, &mut self.front, event) {
            Ok(events) => {
                self.season.apply(&event);
                self.events = events;
                Ok(())
            }
            Err(_) => Err(OutOfMemory),
        }
    }

    /// No event will come, so that workers who wait for one end.
    pub fn shut<R: Wait>(&mut self, rt: &R, lock: &PoolLock<J>)
        ensures shut { self.new.is_shut ≡ true }
        ensures front { self.new.front ≡ self.old.front }
    {
        lock.shut(rt, &mut self.front);
        self.is_shut = true;
    }

    /// The pool, if no event will come any more.
    pub fn close(self, lock: PoolLock<J>) -> Pool
        requires { self.is_shut ≡ true }
        ensures log { result.log ≡ self.front }
        ensures home { out_count result.loans ≡ 0 }
        ensures sheet { result.sheet ≡ J.sheet }
        ensures questions { result.questions ≡ J.questions }
    {
        lock.close(self.front)
    }
}
