//! A turn of work in place, without a ticket.

ghost use Rattle.std.specs.Prelude.{◌≡◌, OnErr, OnOk, Some};
ghost use Rattle.branch_pool.specs.inside.Calls.{next_place};
ghost use Rattle.branch_pool.specs.inside.Runs.{IsSameButSeats, TakesTurn, WorksNext};

use crate::loans::{free_number, keep_slot};
use crate::next::earlier_of;
use crate::pool::Pool;
use crate::ticket::Turn;
use league_core::OutOfMemory;
use reason_core::Solver;

impl Pool {
    /// One turn of work without a ticket: the leaf that `take` would lend is solved in its place,
    /// and what was found is put where `give` would put it. The worker is one for the pool's sheet
    /// and season. If memory runs out, the pool is as before.
    pub fn work_next<W: Solver>(&mut self, worker: &mut W) -> Turn
        requires sheet { W.sheet worker.old ≡ self.old.sheet }
        requires season { W.season worker.old ≡ self.old.season }
        ensures turn { TakesTurn self.old result self.new }
        ensures unchanged { IsSameButSeats self.old self.new }
        ensures same_sheet { W.sheet worker.new ≡ W.sheet worker.old }
        ensures same_season { W.season worker.new ≡ W.season worker.old }
    {
        let Some(place) = self.next_place() else {
            return Turn::Nothing;
        };
        match self.work_at(place, worker) {
            Ok(()) => Turn::Worked,
            Err(OutOfMemory) => Turn::OutOfMemory,
        }
    }

    fn work_at<W: Solver>(&mut self, place: u16, worker: &mut W) -> Result<(), OutOfMemory>
        requires next { next_place self.old ≡ Some place }
        requires sheet { W.sheet worker.old ≡ self.old.sheet }
        requires season { W.season worker.old ≡ self.old.season }
        ensures ok { OnOk result (WorksNext self.old self.new) }
        ensures unchanged { IsSameButSeats self.old self.new }
        ensures err { OnErr result (self.new ≡ self.old) }
        ensures same_sheet { W.sheet worker.new ≡ W.sheet worker.old }
        ensures same_season { W.season worker.new ≡ W.season worker.old }
    {
        let number = free_number(self.loans.as_slice());
        self.loans.reserve(1)?;
        let seat = &mut self.seats[place as usize];
        seat.work(number as u64, worker)?;
        keep_slot(&mut self.loans, number);
        self.work_from = earlier_of(self.work_from, place);
        Ok(())
    }
}
