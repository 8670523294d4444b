//! A ticket is given back, with what was found at its piece.

ghost use Rattle.std.specs.Prelude.{◌≡◌, ◌≢◌, ◌↔◌, IfSome, IsTrue, Some};
ghost use Rattle.reason_core.specs.inside.Dones.{IsFor, IsTrueDone, IsTrueOf, done_with};
ghost use Rattle.branch_pool.specs.inside.States.{present_epoch, loan_at};
ghost use Rattle.branch_pool.specs.inside.Steps.{IsOwnTicket, IsPresent, ComesHome, Keeps, Gives};
ghost use Rattle.branch_pool.specs.inside.Steps.{loan_of};
ghost use Rattle.branch_pool.specs.inside.Calls.{IsEpochSaid, IsExampleLeft, LeavesOver};
ghost use Rattle.branch_pool.specs.declared.ticket.Gave.TheVariants.{Kept};

use crate::discarded::{Discarded, example_of};
use crate::loans::is_loan_of;
use crate::next::earlier_of;
use crate::pool::Pool;
use crate::question_state::Loan;
use crate::ticket::{Gave, Ticket};
use league_core::Question;
use reason_core::{Done, Finding, Piece};
use tree_arena::Example;

impl Pool {
    /// Gives a ticket back with what was done, which is about its piece. What was done is kept
    /// exactly if the ticket is the pool's own and of the present epoch.
    pub fn give(&mut self, ticket: Ticket, done: Done) -> Gave
        requires is_for { IsFor done ticket.piece }
        requires sound { IsTrueDone self.old.sheet done }
        ensures gives { Gives self.old ticket done result self.new }
        ensures epoch { IsEpochSaid self.new ticket result }
        ensures sheet { self.new.sheet ≡ self.old.sheet }
        ensures questions { self.new.questions ≡ self.old.questions }
        ensures log { self.new.log ≡ self.old.log }
    {
        let (gave, _) = self.give_leaving(ticket, done.into_finding());
        gave
    }

    /// As `give`, with what was found at the ticket's piece, if something was. Returns what the
    /// pool no longer needs, so the caller can drop it outside the lock.
    pub fn give_leaving(&mut self, ticket: Ticket, finding: Option<Finding>) -> (Gave, Discarded)
        requires sound { IfSome finding (IsTrueOf self.old.sheet ticket.piece) }
        ensures gives { Gives self.old ticket (done_with ticket.piece finding) result.0 self.new }
        ensures epoch { IsEpochSaid self.new ticket result.0 }
        ensures leaves { LeavesOver self.old ticket finding result.0 result.1 }
        ensures sheet { self.new.sheet ≡ self.old.sheet }
        ensures questions { self.new.questions ≡ self.old.questions }
        ensures log { self.new.log ≡ self.old.log }
    {
        let (gave, example, loan) = self.give_back(&ticket, finding);
        let Ticket {
            number: _,
            epoch: _,
            place: _,
            piece,
        } = ticket;
        let Piece {
            season,
            question: _,
            zone,
        } = piece;
        (
            gave,
            Discarded {
                season: Some(season),
                zone,
                example,
                loan,
            },
        )
    }

    fn give_back(
        &mut self,
        ticket: &Ticket,
        finding: Option<Finding>,
    ) -> (Gave, Option<Example>, Option<Loan>)
        requires sound { IfSome finding (IsTrueOf self.old.sheet ticket.now.piece) }
        ensures gives { Gives self.old ticket.now (done_with ticket.now.piece finding) result.0
            self.new }
        ensures example { IsExampleLeft self.old ticket.now finding result.0 result.1 }
    {
        let epoch = self.epoch();
        if !self.is_own(ticket) {
            return (Gave::Stale { epoch }, example_of(finding), None);
        }
        if ticket.epoch != epoch {
            let loan = self.come_home(ticket);
            return (Gave::Stale { epoch }, example_of(finding), loan);
        }
        let (example, loan) = self.keep(ticket, finding);
        (Gave::Kept, example, loan)
    }

    // The ticket is one of the pool's.
    fn is_own(&self, ticket: &Ticket) -> bool
        ensures { IsTrue result ↔ IsOwnTicket self.now ticket.now }
    {
        self.is_out(ticket) && (ticket.epoch != self.epoch() || self.is_present(ticket))
    }

    fn is_out(&self, ticket: &Ticket) -> bool
        ensures { IsTrue result
            ↔ (loan_at self.now.loans ticket.now.number ≡ Some (loan_of ticket.now)) }
    {
        let loans = self.loans.as_slice();
        let number = ticket.number as usize;
        if number >= loans.len() {
            return false;
        }
        match &loans[number] {
            Some(loan) => is_loan_of(loan, ticket),
            None => false,
        }
    }

    fn is_present(&self, ticket: &Ticket) -> bool
        requires out { loan_at self.now.loans ticket.now.number ≡ Some (loan_of ticket.now) }
        requires epoch { ticket.now.epoch ≡ present_epoch self.now }
        ensures { IsTrue result ↔ IsPresent self.now ticket.now }
    {
        let seat = &self.seats[ticket.place as usize];
        is_same_question(seat.question, ticket.piece.question)
            && self.season.equals(&ticket.piece.season)
    }

    // The number of a ticket of an earlier epoch comes home. Returns what was out under it.
    fn come_home(&mut self, ticket: &Ticket) -> Option<Loan>
        requires own { IsOwnTicket self.old ticket.now }
        requires earlier { ticket.now.epoch ≢ present_epoch self.old }
        ensures { ComesHome self.old ticket.now self.new }
    {
        let home = self.loans.replace(ticket.number as usize, None);
        home
    }

    // What was found comes in place of the leaf that is lent with the ticket.
    fn keep(&mut self, ticket: &Ticket, finding: Option<Finding>) -> (Option<Example>, Option<Loan>)
        requires own { IsOwnTicket self.old ticket.now }
        requires epoch { ticket.now.epoch ≡ present_epoch self.old }
        requires sound { IfSome finding (IsTrueOf self.old.sheet ticket.now.piece) }
        ensures keeps { Keeps self.old ticket.now (done_with ticket.now.piece finding) self.new }
        ensures example { IsExampleLeft self.old ticket.now finding Kept result.0 }
    {
        let seat = &mut self.seats[ticket.place as usize];
        let left = seat.settle(ticket.number, finding);
        self.work_from = earlier_of(self.work_from, ticket.place);
        let home = self.loans.replace(ticket.number as usize, None);
        (left, home)
    }
}

fn is_same_question(question: Question, other: Question) -> bool
    ensures { IsTrue result ↔ (question ≡ other) }
{
    question == other
}
