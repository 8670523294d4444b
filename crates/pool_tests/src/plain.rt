//! A plain pool over boxed trees: what it is, and what is taken from it and given back, each as the
//! definition of the step says.

use crate::held::{Found, Held};
use branch_pool::{Answer, Gave};
use league_core::{Listing, Literal, Question, Season};
use reference_programs::BoxedTree;
use std::alloc::Global;
use std::test::Fail;

/// What is kept of a question; of its example the finish.
#[derive(Drop)]
pub struct PlainSeat {
    pub question: Question,
    pub tree: BoxedTree,
    pub units: u32,
    pub lent: u32,
    pub example: Option<Season>,
}

/// What is out under a number.
#[derive(Drop)]
pub struct PlainLoan {
    pub epoch: u64,
    pub place: u16,
    pub zone: Listing<Literal>,
}

#[derive(Drop)]
pub struct PlainPool {
    pub budget: u32,
    pub season: Season,
    pub epoch: u64,
    pub seats: Vec<PlainSeat>,
    pub loans: Vec<Option<PlainLoan>>,
    pub is_open: bool,
}

pub fn same(is_same: bool, what: &'static str) -> Result<(), Fail> {
    if is_same { Ok(()) } else { Err(what.into()) }
}

impl PlainSeat {
    /// There is work for the question.
    pub fn is_workable(&self, budget: u32) -> bool {
        self.example.is_none()
            && self.tree.has_open()
            && self.units.saturating_add(self.lent) < budget
    }

    /// How far the question is.
    pub fn answer(&self, budget: u32) -> Answer {
        if self.example.is_some() {
            Answer::Won
        } else if self.tree.is_refuted() {
            Answer::Refuted
        } else if self.units == budget {
            Answer::Spent
        } else {
            Answer::NotYet
        }
    }

    fn lend(&mut self, held: &Held) -> Result<(), Fail> {
        same(self.question == held.piece.question, "another question")?;
        lend_there(&mut self.tree, held)?;
        self.lent = self.lent.saturating_add(1);
        Ok(())
    }

    // Puts what was found in place of the leaf under the number.
    fn give(&mut self, number: u64, found: Found) -> Result<(), Fail> {
        self.lent = self.lent.saturating_sub(1);
        if !self.tree.is_lent_once(number) {
            return Err("the number is not lent once".into());
        }
        match found {
            Found::Refuted(reason) => self.tree.refute(number, reason),
            Found::Split(test) => self.tree.split(number, test),
            Found::Won(_) | Found::Nothing => self.tree.reopen(number),
        }
        self.count(found);
        Ok(())
    }

    // A reason or a split is a unit; the first example stays.
    fn count(&mut self, found: Found) {
        match found {
            Found::Refuted(_) | Found::Split(_) => self.units = self.units.saturating_add(1),
            Found::Won(finish) => {
                if self.example.is_none() {
                    self.example = Some(finish);
                }
            }
            Found::Nothing => {}
        }
    }
}

// The open leaf of the piece's zone is lent.
fn lend_there(tree: &mut BoxedTree, held: &Held) -> Result<(), Fail> {
    if tree.is_lent(held.number) {
        return Err("the number is lent".into());
    }
    let is_open = tree.lend_there(held.piece.zone.literals.as_slice(), held.number)?;
    same(is_open, "no open leaf has this zone")
}

impl PlainLoan {
    fn is_of(&self, held: &Held) -> bool {
        self.epoch == held.epoch
            && self.place == held.place
            && self.zone.as_slice() == held.piece.zone.literals.as_slice()
    }
}

impl PlainPool {
    /// The question that comes next: the first with work and nothing out, else the first with work.
    pub fn next_place(&self) -> Option<usize> {
        let budget = self.budget;
        let untouched = self
            .seats
            .iter()
            .position(|seat| seat.is_workable(budget) && seat.lent == 0);
        match untouched {
            Some(place) => Some(place),
            None => self.seats.iter().position(|seat| seat.is_workable(budget)),
        }
    }

    /// Work may come.
    pub fn may_go_on(&self) -> bool {
        self.is_open || self.out() > 0
    }

    /// How many numbers are out.
    pub fn out(&self) -> usize {
        self.loans.iter().filter(|loan| loan.is_some()).count()
    }

    fn free_number(&self) -> usize {
        let free = self.loans.iter().position(|loan| loan.is_none());
        free.unwrap_or(self.loans.len())
    }

    /// Lends what the ticket says, which has to be what comes next.
    pub fn lend(&mut self, alloc: Global, held: &Held) -> Result<(), Fail> {
        let place = held.place as usize;
        same(
            self.next_place() == Some(place),
            "another question comes next",
        )?;
        same(
            held.number == self.free_number() as u64,
            "not the least number",
        )?;
        same(held.epoch == self.epoch, "another epoch")?;
        same(held.piece.season.equals(&self.season), "another season")?;
        if place < self.seats.len() {
            self.seats[place].lend(held)?;
        }
        self.write_loan(alloc, held)
    }

    fn write_loan(&mut self, alloc: Global, held: &Held) -> Result<(), Fail> {
        let number = held.number as usize;
        let loan = PlainLoan {
            epoch: held.epoch,
            place: held.place,
            zone: held.piece.zone.literals.copy(alloc)?,
        };
        if number < self.loans.len() {
            self.loans[number] = Some(loan);
        } else {
            self.loans.push(Some(loan)).map_err(|_| "no memory")?;
        }
        Ok(())
    }

    /// Takes what was found, if the ticket is the pool's own and of the present epoch.
    pub fn give(&mut self, held: &Held, found: Found) -> Result<Gave, Fail> {
        if self.takes(held) {
            self.keep(held, found)
        } else {
            Ok(Gave::Stale { epoch: self.epoch })
        }
    }

    // Takes the number of a ticket of its own home; whether what was found counts.
    fn takes(&mut self, held: &Held) -> bool {
        let is_of_epoch = held.epoch == self.epoch;
        if !self.has_out(held) || is_of_epoch && !self.is_present(held) {
            return false;
        }
        self.take_home(held.number);
        is_of_epoch
    }

    fn keep(&mut self, held: &Held, found: Found) -> Result<Gave, Fail> {
        let place = held.place as usize;
        if place < self.seats.len() {
            self.seats[place].give(held.number, found)?;
        }
        Ok(Gave::Kept)
    }

    fn has_out(&self, held: &Held) -> bool {
        let number = held.number as usize;
        if self.loans.len() <= number {
            return false;
        }
        match &self.loans[number] {
            Some(loan) => loan.is_of(held),
            None => false,
        }
    }

    // The season is the ticket's, and so is the question at its place, and its leaf is lent there.
    fn is_present(&self, held: &Held) -> bool {
        let place = held.place as usize;
        if self.seats.len() <= place {
            return false;
        }
        let seat = &self.seats[place];
        seat.question == held.piece.question
            && self.season.equals(&held.piece.season)
            && seat.tree.is_lent_once(held.number)
    }

    fn take_home(&mut self, number: u64) {
        let number = number as usize;
        if number < self.loans.len() {
            self.loans[number] = None;
        }
    }
}
