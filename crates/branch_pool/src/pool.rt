//! The pool: questions about a season while it is played, and what it knows of them.

ghost use Rattle.std.specs.Prelude.{◌≡◌, ◌<◌, ◌≤◌, length, All, IfOk, IsTrue, Some};
ghost use Rattle.std.specs.List.{slice_get};
ghost use Rattle.league_core.specs.game.Limits.{most_events};
ghost use Rattle.league_core.specs.game.Sheets.{IsWithinLimits};
ghost use Rattle.league_core.specs.game.Seasons.{AreEventsOf, IsSeasonOf, season_after};
ghost use Rattle.league_core.specs.inside.Codes.{has_code};
ghost use Rattle.league_core.specs.game.Questions.{IsQuestionOf};
ghost use Rattle.branch_pool.specs.inside.States.{pool_begun, present_epoch, out_count};
ghost use Rattle.branch_pool.specs.inside.States.{most_questions};
ghost use Rattle.branch_pool.specs.inside.Steps.{pool_opened, pool_shut, pool_recalled};
ghost use Rattle.branch_pool.specs.inside.Goodness.{IsGood, IsSoundPool};
ghost use Rattle.branch_pool.specs.inside.Calls.{pool_answer, example_at, tree_at};
ghost use Rattle.branch_pool.specs.inside.Looks.{seen_example};

use crate::question_state::{Loan, QuestionState};
use crate::questions::{new_seats, recall_seats};
use crate::ticket::Answer;
use league_core::{Event, Finish, Lots, OutOfMemory, Question, RoomyList, Season, Sheet};
use std::alloc::Global;
use std::marker::Model;
use tree_arena::Tree;

/// Questions about a season while it is played, each with a tree that is worked on leaf by leaf.
///
/// Contracts see it as the record `PoolView`. What is taken is out under a number until it is
/// given back, an event is reported, or all is recalled.
#[derive(Drop)]
pub struct Pool {
    pub(crate) alloc: Global,
    pub(crate) sheet: Sheet,
    pub(crate) questions: Vec<Question>,
    pub(crate) season: Season,
    pub(crate) log: Vec<Event>,
    pub(crate) seats: Vec<QuestionState>,
    // no question before this place has work
    pub(crate) work_from: usize,
    pub(crate) loans: RoomyList<Option<Loan>>,
    pub(crate) is_open: bool,
}

impl Model for Pool {
    ghost use Rattle.branch_pool.specs.inside.States.{PoolView};
    ghost use Rattle.branch_pool.specs.contracts.question_state.QuestionState as seat;
    ghost use Rattle.branch_pool.specs.contracts.question_state.Loan as loan;
    ghost use Rattle.std.specs.Coded.{codes};

    ghost Value = { PoolView };

    ghost coded = { Prim.hlevel (codes, seat.the_row.coded, loan.the_row.coded) };

    ghost use Rattle.branch_pool.specs.inside.Views.{state_of, IsPoolKept};

    ghost view = { state_of };

    ghost invariant = { IsPoolKept };
}

impl Pool {
    /// A pool of a sheet and questions about it: nothing is played, and events may come. Want of
    /// memory lets sheet and questions go.
    pub fn begin(alloc: Global, sheet: Sheet, questions: Vec<Question>) -> Result<Pool, OutOfMemory>
        requires limits { IsWithinLimits sheet }
        requires of_sheet { All (IsQuestionOf sheet) questions.items }
        requires few { length questions.items ≤ most_questions }
        ensures { IfOk result (λ pool. pool ≡ pool_begun sheet questions.items) }
    {
        let season = Season::unplayed(alloc, sheet.clubs.len(), sheet.fixtures.len())?;
        let seats = new_seats(alloc, questions.as_slice())?;
        Ok(Pool {
            alloc,
            sheet,
            questions,
            season,
            log: Vec::new(alloc),
            seats,
            work_from: 0,
            loans: RoomyList::new(alloc),
            is_open: true,
        })
    }

    /// How many events have been reported.
    pub fn epoch(&self) -> u64
        ensures { result ≡ present_epoch self.now }
    {
        self.log.len() as u64
    }

    /// How many numbers are out.
    pub fn out(&self) -> u64
        ensures { result ≡ out_count self.now.loans }
    {
        self.loans
            .as_slice()
            .iter()
            .filter(|loan| loan.is_some())
            .count() as u64
    }

    /// What the pool was told of the season.
    pub fn season(&self) -> &Season
        ensures season { result.now ≡ self.now.season }
        ensures of_sheet { IsSeasonOf self.now.sheet result.now }
    {
        &self.season
    }

    /// The sheet that season and questions are of.
    pub fn sheet(&self) -> &Sheet
        ensures sheet { result.now ≡ self.now.sheet }
        ensures limits { IsWithinLimits result.now }
    {
        &self.sheet
    }

    /// The questions, each at its place, from 0.
    pub fn questions(&self) -> &[Question]
        ensures questions { result.now ≡ self.now.questions }
        ensures of_sheet { All (IsQuestionOf self.now.sheet) result.now }
        ensures few { length result.now ≤ most_questions }
    {
        self.questions.as_slice()
    }

    /// The events that have been reported, in their order.
    pub fn log(&self) -> &[Event]
        ensures log { result.now ≡ self.now.log }
        ensures few { length result.now ≤ most_events }
        ensures codes { All (λ event. IsTrue (has_code event)) result.now }
        ensures of_sheet { AreEventsOf self.now.sheet result.now }
        ensures season { self.now.season ≡ season_after self.now.sheet result.now }
    {
        self.log.as_slice()
    }

    /// The tree of the question at a place, from 0.
    pub fn tree(&self, place: u16) -> &Tree
        requires in_range { place < length self.now.questions }
        ensures tree { tree_at self.now place ≡ Some result.now }
        ensures good { IsGood self.now }
    {
        let seat = &self.seats[place as usize];
        &seat.tree
    }

    /// The example of the question at a place, from 0, if one is kept.
    pub fn example(&self, place: u16) -> Option<(&Finish, &Lots)>
        requires in_range { place < length self.now.questions }
        ensures example { example_at self.now place ≡ Some (seen_example result) }
        ensures good { IsGood self.now }
    {
        let seat = &self.seats[place as usize];
        match &seat.example {
            Some(example) => Some((&example.finish, &example.lots)),
            None => None,
        }
    }

    /// What is kept of the question at a place, from 0.
    pub fn seat(&self, place: u16) -> &QuestionState
        requires in_range { place < length self.now.questions }
        ensures seat { slice_get self.now.seats place ≡ Some result.now }
        ensures sound { IsSoundPool self.now }
    {
        &self.seats[place as usize]
    }

    /// What is kept of all questions, in their order, in place of the pool.
    pub fn into_seats(self) -> Vec<QuestionState>
        ensures seats { result.items ≡ self.seats }
        ensures sound { IsSoundPool self }
    {
        self.seats
    }

    /// A look that says all that the type keeps.
    pub fn recall_invariant(&self)
        ensures sound { IsSoundPool self.now }
        ensures good { IsGood self.now }
    {
        let _ = &self.seats;
    }

    /// How far the question at a place, from 0, is.
    pub fn answer(&self, place: u16) -> Answer
        requires in_range { place < length self.now.questions }
        ensures answer { pool_answer self.now place ≡ Some result }
        ensures good { IsGood self.now }
    {
        let seat = &self.seats[place as usize];
        seat.answer(&self.sheet)
    }

    /// More events may come.
    pub fn start(&mut self)
        ensures { self.new ≡ pool_opened self.old }
    {
        self.is_open = true;
    }

    /// No event will come.
    pub fn shut(&mut self)
        ensures { self.new ≡ pool_shut self.old }
    {
        self.is_open = false;
    }

    /// Opens each lent leaf and takes each number home.
    pub fn recall(&mut self)
        ensures { self.new ≡ pool_recalled self.old }
    {
        recall_seats(&mut self.seats);
        self.work_from = 0;
        self.loans = RoomyList::new(self.alloc);
    }
}
