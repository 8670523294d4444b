//! What is out, number by number.

ghost use Rattle.std.specs.Prelude.{◌≡◌, ◌<◌, ◌≤◌, ◌↔◌, length, IsTrue};
ghost use Rattle.branch_pool.specs.inside.States.{free_number, with_loan};
ghost use Rattle.branch_pool.specs.inside.Steps.{loan_of};
ghost use Rattle.branch_pool.specs.inside.QuestionStates.{with_slot};

use crate::question_state::Loan;
use crate::ticket::Ticket;
use league_core::{Literal, RoomyList};

// The least number under which nothing is out.
pub fn free_number(loans: &[Option<Loan>]) -> usize
    ensures { result ≡ free_number loans.now }
{
    for (number, loan) in loans.iter().enumerate() {
        if loan.is_none() {
            return number;
        }
    }
    loans.len()
}

// Writes a loan under a number that is free, for which there is room.
pub fn put_loan(loans: &mut RoomyList<Option<Loan>>, number: usize, loan: Loan)
    requires in_range { number ≤ length loans.old.items }
    requires room { 0 < loans.old.room }
    ensures { loans.new.items ≡ with_loan loans.old.items number loan }
{
    if number < loans.len() {
        let _was = loans.replace(number, Some(loan));
    } else {
        loans.push(Some(loan));
    }
}

// Keeps a place for a number that is free, for which there is room, with nothing in it.
pub fn keep_slot(loans: &mut RoomyList<Option<Loan>>, number: usize)
    requires free { number ≡ free_number loans.old.items }
    requires room { 0 < loans.old.room }
    ensures { loans.new.items ≡ with_slot loans.old.items number }
{
    if number >= loans.len() {
        loans.push(None);
    }
}

// What is out is what the ticket says.
pub fn is_loan_of(loan: &Loan, ticket: &Ticket) -> bool
    ensures { IsTrue result ↔ (loan.now ≡ loan_of ticket.now) }
{
    loan.epoch == ticket.epoch
        && loan.place == ticket.place
        && is_same_zone(
            loan.zone.literals.as_slice(),
            ticket.piece.zone.literals.as_slice(),
        )
}

fn is_same_zone(literals: &[Literal], others: &[Literal]) -> bool
    ensures { IsTrue result ↔ (literals.now ≡ others.now) }
{
    literals == others
}
