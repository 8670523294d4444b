//! An event is reported.

ghost use Rattle.std.specs.Prelude.{◌≡◌, ◌++◌, ◌∷◌, [], ◌<◌, ◌≤◌, ◌↔◌, length, All, IfOk};
ghost use Rattle.std.specs.Prelude.{OnErr, OnOk, Err, IsTrue};
ghost use Rattle.league_core.specs.game.Limits.{most_events};
ghost use Rattle.league_core.specs.game.Seasons.{IsEventOf};
ghost use Rattle.branch_pool.specs.inside.Steps.{Changes, pool_changed};
ghost use Rattle.branch_pool.specs.inside.QuestionStates.{IsUncut};

use crate::pool::Pool;
use crate::questions::{are_uncut, change_seats, change_uncut, trees_for};
use crate::ticket::ChangeStop;
use league_core::limits::MOST_EVENTS;
use league_core::{Event, OutOfMemory};

impl Pool {
    /// Reports an event, and answers the new epoch. Each tree is carried over to the new season,
    /// and an example stays if it is one. After a refusal the pool is as before.
    pub fn change(&mut self, event: Event) -> Result<u64, ChangeStop>
        requires may_be { IsEventOf self.old.season event }
        ensures ok { OnOk result (Changes self.old event self.new) }
        ensures epoch { IfOk result (λ epoch. epoch ≡ length self.new.log) }
        ensures log { OnOk result (self.new.log ≡ self.old.log ++ event ∷ []) }
        ensures full { (result ≡ Err ChangeStop.LogFull) ↔ (length self.old.log ≡ most_events) }
        ensures err { OnErr result (self.new ≡ self.old) }
        ensures sheet { self.new.sheet ≡ self.old.sheet }
        ensures questions { self.new.questions ≡ self.old.questions }
    {
        if self.is_full() {
            return Err(ChangeStop::LogFull);
        }
        match self.apply(event) {
            Ok(()) => Ok(self.epoch()),
            Err(OutOfMemory) => Err(ChangeStop::OutOfMemory),
        }
    }

    /// Reports an event if the log has room for one more. After an `Err` the pool is as before.
    pub fn change_with_room(&mut self, event: Event) -> Result<(), OutOfMemory>
        requires may_be { IsEventOf self.old.season event }
        requires room { length self.old.log < most_events }
        ensures ok { OnOk result (Changes self.old event self.new) }
        ensures log { OnOk result (self.new.log ≡ self.old.log ++ event ∷ []) }
        ensures err { OnErr result (self.new ≡ self.old) }
        ensures sheet { self.new.sheet ≡ self.old.sheet }
        ensures questions { self.new.questions ≡ self.old.questions }
        ensures home { self.new.loans ≡ self.old.loans }
    {
        self.apply(event)
    }

    // No more events fit into the log.
    fn is_full(&self) -> bool
        ensures full { IsTrue result ↔ (length self.now.log ≡ most_events) }
        ensures within { length self.now.log ≤ most_events }
    {
        self.log.len() == MOST_EVENTS as usize
    }

    fn apply(&mut self, event: Event) -> Result<(), OutOfMemory>
        requires room { length self.old.log < most_events }
        requires may_be { IsEventOf self.old.season event }
        ensures ok { OnOk result (self.new ≡ pool_changed event self.old) }
        ensures err { OnErr result (self.new ≡ self.old) }
    {
        if are_uncut(self.seats.as_slice()) {
            return self.apply_uncut(event);
        }
        self.apply_retarget(event)
    }

    // Writes an event down if each tree is one open leaf, and so stays as it is.
    fn apply_uncut(&mut self, event: Event) -> Result<(), OutOfMemory>
        requires room { length self.old.log < most_events }
        requires may_be { IsEventOf self.old.season event }
        requires uncut { All IsUncut self.old.seats }
        ensures ok { OnOk result (self.new ≡ pool_changed event self.old) }
        ensures err { OnErr result (self.new ≡ self.old) }
    {
        self.log.push(event)?;
        self.season.apply(&event);
        change_uncut(&self.sheet, &self.season, &mut self.seats);
        self.work_from = 0;
        Ok(())
    }

    // Carries each tree over to the season after an event.
    fn apply_retarget(&mut self, event: Event) -> Result<(), OutOfMemory>
        requires room { length self.old.log < most_events }
        requires may_be { IsEventOf self.old.season event }
        ensures ok { OnOk result (self.new ≡ pool_changed event self.old) }
        ensures err { OnErr result (self.new ≡ self.old) }
    {
        let mut season = self.season.copy(self.alloc)?;
        season.apply(&event);
        let mut trees = trees_for(self.alloc, &self.sheet, &season, self.seats.as_slice())?;
        self.log.push(event)?;
        change_seats(&self.sheet, &season, &mut trees, &mut self.seats);
        self.work_from = 0;
        self.season = season;
        Ok(())
    }
}
