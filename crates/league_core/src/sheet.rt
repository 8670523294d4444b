//! The league sheet: clubs, fixtures, lines, goal limit and node budget, as data.
//!
//! Clubs and fixtures count from 0 here, in the order of the sheet; texts count them from 1. What a
//! sheet has to be is `IsWithinLimits` of `specs/game/Sheets.antt`.

ghost use Rattle.std.specs.Prelude.{◌≡◌, IfOk};
ghost use Rattle.league_core.specs.game.Ahead.{rank_of};

use crate::listing::{Listing, Name};
use crate::memory::OutOfMemory;
use std::alloc::Global;

/// A club and its fixed rank, 1 to 999. Two clubs may share a rank.
#[derive(Drop)]
pub struct Club {
    pub name: Name,
    pub rank: u16,
}

impl Club {
    /// The same club once more.
    pub fn copy(&self, alloc: Global) -> Result<Club, OutOfMemory>
        ensures { IfOk result (λ club. club ≡ self.now) }
    {
        Ok(Club {
            name: self.name.copy(alloc)?,
            rank: self.rank,
        })
    }
}

/// A match of two different clubs, by their numbers.
#[derive(Clone, Copy, Debug, PartialEq, Eq)]
pub struct Fixture {
    pub home: u8,
    pub away: u8,
}

/// Which tie-break criteria come first among clubs on one number of points.
#[derive(Clone, Copy, Debug, PartialEq, Eq)]
pub enum Order {
    /// The head-to-head record, then the sums over all matches.
    HeadFirst,
    /// Goal difference and goals over all matches, then the head-to-head record.
    OverallFirst,
}

/// What is to be played, and what is asked of it.
#[derive(Drop)]
pub struct Sheet {
    pub name: Name,
    /// 2 to 24 clubs.
    pub clubs: Listing<Club>,
    /// At most 600 fixtures; a pair may meet several times.
    pub fixtures: Listing<Fixture>,
    /// Each line is the number k of first places that it asks for; at most 4, all different.
    pub lines: Listing<u8>,
    /// The most goals a side may score in a match that is not played yet, 1 to 20.
    pub goal_limit: u8,
    /// Search nodes per question and epoch, 1 to 50,000.
    pub budget: u32,
    /// How clubs on one number of points are ranked.
    pub order: Order,
}

impl Sheet {
    /// The same sheet once more.
    pub fn copy(&self, alloc: Global) -> Result<Sheet, OutOfMemory>
        ensures { IfOk result (λ sheet. sheet ≡ self.now) }
    {
        Ok(Sheet {
            name: self.name.copy(alloc)?,
            clubs: copy_clubs(alloc, self.clubs.as_slice())?,
            fixtures: self.fixtures.copy(alloc)?,
            lines: self.lines.copy(alloc)?,
            goal_limit: self.goal_limit,
            budget: self.budget,
            order: self.order,
        })
    }

    /// The club's fixed rank; 0 for a number that is no club's.
    pub fn rank_of(&self, club: u8) -> u16
        ensures { result ≡ rank_of self.now club }
    {
        match self.clubs.as_slice().get(club as usize) {
            Some(found) => found.rank,
            None => 0,
        }
    }
}

fn copy_clubs(alloc: Global, clubs: &[Club]) -> Result<Listing<Club>, OutOfMemory>
    ensures { IfOk result (λ copies. copies ≡ clubs.now) }
{
    let mut copies = Listing::new(alloc);
    for club in clubs {
        copies.push(club.copy(alloc)?)?;
    }
    Ok(copies)
}
