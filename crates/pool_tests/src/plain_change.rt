//! What a plain pool becomes when an event is reported, and when all is recalled.

ghost use Rattle.league_core.specs.game.Seasons.{IsEventOf};
ghost use Rattle.league_core.specs.game.Sheets.{IsWithinLimits};

use crate::eligibility::is_season_of;
use crate::help::may_be;
use crate::plain::{PlainPool, PlainSeat};
use league_core::{Event, Question, Season, Sheet};
use reference_programs::{BoxedTree, retarget_over};
use score_box::Played;
use std::alloc::Global;
use std::test::Fail;

impl PlainSeat {
    fn new(alloc: Global, question: Question) -> Result<PlainSeat, Fail> {
        Ok(PlainSeat {
            question,
            tree: BoxedTree::root(alloc)?,
            units: 0,
            lent: 0,
            example: None,
        })
    }

    fn recall(&mut self) {
        self.tree.reopen_all();
        self.lent = 0;
    }

    // Goes on in the season that was played so far.
    fn change(&mut self, alloc: Global, played: &Played) -> Result<(), Fail> {
        self.tree = carried(alloc, played, &self.question, &self.tree)?;
        self.units = 0;
        self.lent = 0;
        if !is_finish_of(played.sheet(), played.season(), &self.example) {
            self.example = None;
        }
        Ok(())
    }
}

fn carried(
    alloc: Global,
    played: &Played,
    question: &Question,
    tree: &BoxedTree,
) -> Result<BoxedTree, Fail> {
    let sheet = played.sheet();
    if sheet.clubs.len() <= question.club as usize || !tree.has_tests_of(sheet) {
        return Err("a question or a test of another sheet".into());
    }
    Ok(retarget_over(alloc, played, question, tree)?)
}

fn carry_seats(alloc: Global, played: &Played, seats: &mut Vec<PlainSeat>) -> Result<(), Fail> {
    for place in 0..seats.len() {
        carry_at(alloc, played, seats, place)?;
    }
    Ok(())
}

fn carry_at(
    alloc: Global,
    played: &Played,
    seats: &mut Vec<PlainSeat>,
    place: usize,
) -> Result<(), Fail> {
    if place < seats.len() {
        seats[place].change(alloc, played)?;
    }
    Ok(())
}

// Whether the season may end like this: what it has played stays, and what is open keeps to the
// goal limit.
fn is_finish_of(sheet: &Sheet, season: &Season, finish: &Option<Season>) -> bool {
    let Some(finish) = finish else {
        return true;
    };
    if finish.scores().len() != season.scores().len() {
        return false;
    }
    for fixture in 0..season.scores().len() {
        let is_kept = match (season.scores()[fixture], finish.scores()[fixture]) {
            (_, None) => false,
            (Some(played), Some(ended)) => played == ended,
            (None, Some(ended)) => ended.home.max(ended.away) <= sheet.goal_limit,
        };
        if !is_kept {
            return false;
        }
    }
    finish.deductions() == season.deductions()
}

impl PlainPool {
    /// Nothing is played, and no question has been worked on.
    pub fn begin(alloc: Global, sheet: &Sheet, questions: &[Question]) -> Result<PlainPool, Fail> {
        let mut seats = Vec::new(alloc);
        for question in questions {
            let seat = PlainSeat::new(alloc, *question)?;
            seats.push(seat).map_err(|_| "no memory")?;
        }
        Ok(PlainPool {
            budget: sheet.budget,
            season: Season::unplayed(alloc, sheet.clubs.len(), sheet.fixtures.len())?,
            epoch: 0,
            seats,
            loans: Vec::new(alloc),
            is_open: true,
        })
    }

    /// Reports an event.
    pub fn change(&mut self, alloc: Global, sheet: &Sheet, event: Event) -> Result<(), Fail>
        requires { IsWithinLimits sheet.now }
    {
        if !may_be(&self.season, &event) {
            return Err("no event of the season".into());
        }
        self.season.apply(&event);
        self.epoch = self.epoch.saturating_add(1);
        self.carry(alloc, sheet)
    }

    fn carry(&mut self, alloc: Global, sheet: &Sheet) -> Result<(), Fail>
        requires { IsWithinLimits sheet.now }
    {
        if !is_season_of(sheet, &self.season) {
            return Err("no season of the sheet".into());
        }
        let played = Played::of(alloc, sheet, &self.season)?;
        carry_seats(alloc, &played, &mut self.seats)
    }

    /// Each lent leaf is open again, and nothing is out.
    pub fn recall(&mut self) {
        for place in 0..self.seats.len() {
            self.seats[place].recall();
        }
        self.loans.clear();
    }
}
