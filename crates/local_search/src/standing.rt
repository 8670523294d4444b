//! How the rivals of a club stand to it by points, kept as results change.

use crate::board::Board;
use crate::spread::Spread;
use crate::start::rivals_of;
use league_core::{Claim, ClubSet, Fixture, OutOfMemory, Question};
use std::alloc::Global;

/// The points of each club, and which rivals are on the wanted side of the club of a question or
/// level with it.
#[derive(Drop)]
pub struct Standing {
    question: Question,
    rivals: ClubSet,
    needed: u8,
    points: [i32; 24],
    wanted: ClubSet,
    level: ClubSet,
    spread: Spread,
}

impl Standing {
    /// That of a finish. As many rivals are needed on the wanted side as end behind the line, or
    /// before it; `clubs` of the sheet.
    pub fn of(
        alloc: Global,
        board: &Board,
        question: &Question,
        clubs: u8,
    ) -> Result<Standing, OutOfMemory> {
        let mut standing = Standing {
            question: *question,
            rivals: rivals_of(question, clubs),
            needed: needed_of(question, clubs),
            points: points_of(board),
            wanted: ClubSet::empty(),
            level: ClubSet::empty(),
            spread: Spread::empty(alloc)?,
        };
        standing.spread_out();
        standing.place_all();
        Ok(standing)
    }

    fn spread_out(&mut self) {
        for club in 0..24 {
            if self.rivals.has(club) {
                self.spread.join(self.points[club as usize]);
            }
        }
    }

    // Sees anew on which side each rival is.
    fn place_all(&mut self) {
        for club in 0..24 {
            if self.rivals.has(club) {
                self.place(club);
            }
        }
    }

    // Sees anew on which side a rival is.
    fn place(&mut self, rival: u8) {
        if rival < 24 {
            let over = self.over(rival);
            let single = ClubSet::single(rival);
            self.wanted = self.wanted.without(single).with_if(over < 0, rival);
            self.level = self.level.without(single).with_if(over == 0, rival);
        }
    }

    // By how many points the rival is on the wrong side: 0 if it is level, less if it is on the
    // wanted side.
    fn over(&self, rival: u8) -> i32 {
        let other = self.points_of(rival);
        match self.question.claim {
            Claim::Inside => other.saturating_sub(self.own()),
            Claim::Outside => self.own().saturating_sub(other),
        }
    }

    // The points of the club of the question.
    fn own(&self) -> i32 {
        self.points_of(self.question.club)
    }

    fn points_of(&self, club: u8) -> i32 {
        self.points.get(usize::from(club)).copied().unwrap_or(0)
    }

    /// Gives the sides of a match so many points more.
    pub fn add(&mut self, sides: Fixture, home: i32, away: i32) {
        self.add_to(sides.home, home);
        self.add_to(sides.away, away);
    }

    fn add_to(&mut self, club: u8, more: i32) {
        let at = usize::from(club);
        if more != 0 && at < 24 {
            let old = self.points[at];
            let new = old.saturating_add(more);
            self.points[at] = new;
            if self.rivals.has(club) {
                self.spread.leave(old);
                self.spread.join(new);
                self.place(club);
            } else {
                self.place_all();
            }
        }
    }

    /// The rivals that are level with the club on points.
    pub fn level(&self) -> ClubSet {
        self.level
    }

    /// How many rivals are missing on the wanted side.
    pub fn missing(&self) -> u8 {
        self.needed.saturating_sub(self.wanted.len())
    }

    /// The least that it costs, if none of those that are level is behind by the criteria: what
    /// brings the rivals that are missing then level, and the club into its window, at 1,500 a
    /// point. If that is more than `most`, some number that is.
    pub fn least(&self, most: u32) -> u32 {
        let missing = self.missing().saturating_sub(self.level.len());
        let cost = self
            .spread
            .cost(self.own(), self.question.claim, missing, most);
        cost.saturating_add(self.outside_window())
    }

    fn outside_window(&self) -> u32 {
        let below = self.question.low.saturating_sub(self.own()).max(0);
        let above = self.own().saturating_sub(self.question.high).max(0);
        (below as u32)
            .saturating_add(above as u32)
            .saturating_mul(1500)
    }
}

fn needed_of(question: &Question, clubs: u8) -> u8 {
    match question.claim {
        Claim::Inside => clubs.saturating_sub(question.line),
        Claim::Outside => question.line,
    }
}

fn points_of(board: &Board) -> [i32; 24] {
    let mut points = [0; 24];
    for club in 0..24 {
        points[club as usize] = board.row(club).points;
    }
    points
}
