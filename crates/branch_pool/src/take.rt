//! A leaf is lent, with a ticket.

ghost use Rattle.std.specs.Prelude.{◌≡◌, None, ◌↔◌, IfOk, OnErr, OnOk, IsTrue, Some};
ghost use Rattle.branch_pool.specs.inside.Calls.{Taking, IsFit, IsFitIfLent, LendsNext, may_go_on};
ghost use Rattle.branch_pool.specs.inside.Calls.{IsSpareUsed, LeavesSpare, next_place};

use crate::loans::{free_number, put_loan};
use crate::next::earlier_of;
use crate::pool::Pool;
use crate::question_state::Loan;
use crate::ticket::{Ticket, Took};
use league_core::{OutOfMemory, Season};
use reason_core::Piece;

impl Pool {
    /// Lends the leaf that comes next: questions go in order, those of which nothing is lent before
    /// those of which something is, and the open leaves of a question depth first, the yes half
    /// first. It takes the room that `give` will need; if memory runs out, the pool is as before.
    pub fn take(&mut self) -> Took
        ensures taking { Taking self.old result self.new }
        ensures fit { IsFitIfLent self.new result }
        ensures sheet { self.new.sheet ≡ self.old.sheet }
        ensures questions { self.new.questions ≡ self.old.questions }
        ensures log { self.new.log ≡ self.old.log }
    {
        let mut spare = None;
        self.take_with(&mut spare)
    }

    /// As `take`, but a ticket carries the spare season if that is the pool's season: then none
    /// is copied, and none is spare any more. Else the pool's season is copied, and the spare one
    /// stays. If memory runs out, both are as before.
    pub fn take_with(&mut self, spare: &mut Option<Season>) -> Took
        ensures taking { Taking self.old result self.new }
        ensures fit { IsFitIfLent self.new result }
        ensures spare { LeavesSpare self.old.season result spare.old spare.new }
        ensures sheet { self.new.sheet ≡ self.old.sheet }
        ensures questions { self.new.questions ≡ self.old.questions }
        ensures log { self.new.log ≡ self.old.log }
    {
        let Some(place) = self.next_place() else {
            return if self.may_go_on() {
                Took::Rest
            } else {
                Took::Over
            };
        };
        match self.lend_next(place, spare) {
            Ok(ticket) => Took::Lent(ticket),
            Err(OutOfMemory) => Took::OutOfMemory,
        }
    }

    // Work may come.
    fn may_go_on(&self) -> bool
        ensures { result ≡ may_go_on self.now }
    {
        self.is_open || self.out() > 0
    }

    // Lends the first open leaf of the question at a place, with the spare season if that is the
    // pool's.
    fn lend_next(&mut self, place: u16, spare: &mut Option<Season>) -> Result<Ticket, OutOfMemory>
        requires next { next_place self.old ≡ Some place }
        ensures ok { IfOk result (λ ticket. LendsNext self.old ticket self.new) }
        ensures fit { IfOk result (IsFit self.new) }
        ensures spare { OnOk result (IsSpareUsed self.old.season spare.old spare.new) }
        ensures err { OnErr result (self.new ≡ self.old) }
        ensures same { OnErr result (spare.new ≡ spare.old) }
    {
        if self.is_season(spare) {
            return self.lend_at(place, spare);
        }
        let mut copied = Some(self.season.copy(self.alloc)?);
        self.lend_at(place, &mut copied)
    }

    // The spare season is the pool's.
    fn is_season(&self, spare: &Option<Season>) -> bool
        ensures { IsTrue result ↔ (spare.now ≡ Some self.now.season) }
    {
        match spare {
            Some(season) => season.equals(&self.season),
            None => false,
        }
    }

    // Lends that leaf with this season, and writes it down.
    fn lend_at(&mut self, place: u16, season: &mut Option<Season>) -> Result<Ticket, OutOfMemory>
        requires next { next_place self.old ≡ Some place }
        requires season { season.old ≡ Some self.old.season }
        ensures ok { IfOk result (λ ticket. LendsNext self.old ticket self.new) }
        ensures fit { IfOk result (IsFit self.new) }
        ensures none { OnOk result (season.new ≡ None) }
        ensures err { OnErr result (self.new ≡ self.old) }
        ensures same { OnErr result (season.new ≡ season.old) }
    {
        let number = free_number(self.loans.as_slice());
        self.loans.reserve(1)?;
        let epoch = self.log.len() as u64;
        let seat = &mut self.seats[place as usize];
        let question = seat.question;
        let (zone, kept) = seat.lend(self.alloc, number as u64)?;
        let loan = Loan {
            epoch,
            place,
            zone: kept,
        };
        put_loan(&mut self.loans, number, loan);
        self.work_from = earlier_of(self.work_from, place);
        let Some(season) = season.take() else {
            unreachable!()
        };
        Ok(Ticket {
            number: number as u64,
            epoch,
            place,
            piece: Piece {
                season,
                question,
                zone,
            },
        })
    }
}
