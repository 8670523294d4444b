//! The trials of a walk: one change of the finish at a time, kept where it does not cost more.

use crate::board::Board;
use crate::cost::Cost;
use crate::draws::Draws;
use crate::live::{live_matches, own_matches};
use crate::row::points_change;
use crate::standing::Standing;
use crate::start::has_window;
use crate::tie_cost::TieCosts;
use league_core::{Fixture, OutOfMemory, Question, Score, Sheet};
use std::alloc::Global;

/// A walk on its way.
#[derive(Drop)]
pub struct Trials<'a> {
    sheet: &'a Sheet,
    question: &'a Question,
    board: Board,
    standing: Standing,
    live: Vec<u16>,
    own: Vec<u16>,
    draws: Draws,
    cost: Cost,
}

impl<'a> Trials<'a> {
    /// A walk that begins at the finish of the board.
    pub fn begin(
        alloc: Global,
        sheet: &'a Sheet,
        question: &'a Question,
        board: Board,
        clubs: u8,
    ) -> Result<Trials<'a>, OutOfMemory> {
        let live = live_matches(alloc, &board, question)?;
        let own = own_matches(alloc, &board, question.club)?;
        let standing = Standing::of(alloc, &board, question, clubs)?;
        let ties = TieCosts::of(&board, sheet, question);
        let cost = Cost::of(&ties, &standing, standing.least(u32::MAX));
        Ok(Trials {
            sheet,
            question,
            board,
            standing,
            live,
            own,
            draws: Draws::of(question),
            cost,
        })
    }

    /// Makes so many trials, fewer where nothing is missing before; gives whether nothing is. Where
    /// the live matches have no more finishes than that, these are gone through instead.
    pub fn run(&mut self, trials: u32) -> bool {
        match self.few_finishes(trials) {
            Some(finishes) => self.go_through(finishes),
            None => self.try_changes(trials),
        }
    }

    // How many finishes the five scores give the live matches, if no more than so many.
    fn few_finishes(&self, most: u32) -> Option<u32> {
        let mut finishes: u32 = 1;
        for _ in &self.live {
            finishes = finishes.saturating_mul(5);
        }
        if finishes <= most {
            Some(finishes)
        } else {
            None
        }
    }

    // Goes through so many finishes of the live matches, until nothing is missing.
    fn go_through(&mut self, finishes: u32) -> bool {
        for number in 0..finishes {
            if self.cost.total == 0 {
                return true;
            }
            self.set_live(number);
            self.cost = self.cost_here(u32::MAX);
        }
        self.cost.total == 0
    }

    // Gives each live match the score that a digit of the number says, to the base of five.
    fn set_live(&mut self, number: u32) {
        let mut left = number;
        for at in 0..self.live.len() {
            if let Some(place) = self.live.get(at).copied() {
                self.put(place, score_of(self.sheet.goal_limit, left % 5));
            }
            left /= 5;
        }
    }

    // Changes one thing at a time, so often.
    fn try_changes(&mut self, trials: u32) -> bool {
        for trial in 0..trials {
            if self.cost.total == 0 {
                return true;
            }
            let slack = self.slack(trial);
            self.make(slack);
        }
        self.cost.total == 0
    }

    /// The finish that it has come to.
    pub fn board(&self) -> &Board {
        &self.board
    }

    // How much more a change may cost: something in every other thousand of trials.
    fn slack(&mut self, trial: u32) -> u32 {
        if trial / 1000 % 2 == 0 {
            0
        } else {
            self.draws.below(1200)
        }
    }

    // One trial. With a window one in five swaps two of the club's own results, and one in five
    // changes one of them.
    fn make(&mut self, slack: u32) {
        let kind = if has_window(self.question) {
            self.draws.below(5)
        } else {
            4
        };
        match kind {
            0 => self.try_swap(slack),
            1 => {
                let place = self.draws.one_of(&self.own);
                self.try_score(place, slack);
            }
            _ => {
                let place = self.draws.one_of(&self.live);
                self.try_score(place, slack);
            }
        }
    }

    // Looks first at what points tell: most changes cost too much by these.
    fn try_score(&mut self, place: Option<u16>, slack: u32) {
        let Some(place) = place else { return };
        let Some(open) = self.board.at(place) else {
            return;
        };
        let score = self.drawn_score(open.score);
        let most = self.cost.total.saturating_add(slack);
        self.count(open.sides, open.score, score);
        let least = self.standing.least(most);
        if most < least {
            self.count(open.sides, score, open.score);
            return;
        }
        self.board.put(place, score);
        let cost = self
            .cost
            .after(&self.ties(), &self.standing, open.sides, least);
        if !self.keeps(cost, most) {
            self.put(place, open.score);
        }
    }

    // Gives an open match a score.
    fn put(&mut self, place: u16, score: Score) {
        if let Some(open) = self.board.at(place) {
            self.count(open.sides, open.score, score);
            self.board.put(place, score);
        }
    }

    // Counts the points of another score.
    fn count(&mut self, sides: Fixture, old: Score, new: Score) {
        let (home, away) = points_change(old, new);
        self.standing.add(sides, home, away);
    }

    // One of five scores; the next of them where the match has that already.
    fn drawn_score(&mut self, old: Score) -> Score {
        let number = self.draws.below(5);
        let score = score_of(self.sheet.goal_limit, number);
        if score == old {
            score_of(self.sheet.goal_limit, (number + 1) % 5)
        } else {
            score
        }
    }

    fn try_swap(&mut self, slack: u32) {
        let one = self.draws.one_of(&self.own);
        let other = self.draws.one_of(&self.own);
        if let (Some(one), Some(other)) = (one, other) {
            let most = self.cost.total.saturating_add(slack);
            self.swap(one, other);
            let cost = self.cost_here(most);
            if !self.keeps(cost, most) {
                self.swap(one, other);
            }
        }
    }

    // Swaps two results of the club.
    fn swap(&mut self, one: u16, other: u16) {
        if let Some((first, second)) = self.board.swapped(one, other, self.question.club) {
            self.put(one, first);
            self.put(other, second);
        }
    }

    // The change is kept, where it does not cost more than may be.
    fn keeps(&mut self, cost: Cost, most: u32) -> bool {
        if most < cost.total {
            return false;
        }
        self.cost = cost;
        true
    }

    // That of the finish as it stands; if it is more than `most`, only some number that is.
    fn cost_here(&self, most: u32) -> Cost {
        Cost::of(&self.ties(), &self.standing, self.standing.least(most))
    }

    fn ties(&self) -> TieCosts {
        TieCosts::of(&self.board, self.sheet, self.question)
    }
}

// The widest wins, the narrowest ones, and the least draw.
fn score_of(limit: u8, number: u32) -> Score {
    let (home, away) = match number {
        0 => (limit, 0),
        1 => (1, 0),
        2 => (0, 0),
        3 => (0, 1),
        _ => (0, limit),
    };
    Score { home, away }
}
