//! The season: each fixture's score or none, each club's deduction, and the events that change it.
//!
//! Contracts see a season as the record `Results`. Every call but `unplayed` and `copy` takes no
//! memory.

ghost use Rattle.std.specs.Prelude.{◌≡◌, ◌<◌, ◌≤◌, ◌↔◌, length, slice_index, slice_index_or};
ghost use Rattle.std.specs.Prelude.{slice_set, IfOk, IsTrue, None};
ghost use Rattle.league_core.specs.game.Limits.{most_deduction};
ghost use Rattle.league_core.specs.game.Results.{are_results, is_score_or_none};
ghost use Rattle.league_core.specs.game.Seasons.{unplayed_season, event_applied, IsEventOf};

use crate::memory::OutOfMemory;
use crate::score_code::score_code;
use std::alloc::Global;
use std::marker::Model;

/// Goals of the home side and of the away side, 0 to 99 each in a season.
#[derive(Clone, Copy, Debug, PartialEq, Eq)]
pub struct Score {
    pub home: u8,
    pub away: u8,
}

/// What a feed may report of one fixture or club, by its number from 0.
#[derive(Clone, Copy, Debug, PartialEq, Eq)]
pub enum Event {
    /// The fixture has this score, as a result or as a correction.
    Set { fixture: u16, score: Score },
    /// The fixture counts as not played.
    Clear { fixture: u16 },
    /// The club has so many points taken off in all, 0 to 99.
    Deduct { club: u8, points: u8 },
}

/// What has been played. No score has more than 99 goals a side, no deduction more than 99 points.
///
/// Beside the scores it keeps a code of two bytes for each: two seasons are compared by their
/// codes, which is one comparison of memory.
#[derive(Drop)]
pub struct Season {
    scores: Vec<Option<Score>>,
    codes: Vec<u16>,
    deductions: Vec<u8>,
}

impl Model for Season {
    ghost use Rattle.league_core.specs.game.Results.{Results};

    ghost Value = { Results };

    ghost use Rattle.std.specs.Prelude.{IsTrue, ◌≡◌, map};
    ghost use Rattle.league_core.specs.game.Results.{are_results};
    ghost use Rattle.league_core.specs.inside.ScoreCodes.{score_code};

    ghost view = { λ season. record {
      scores = season.scores.items;
      deductions = season.deductions.items;
    } };

    ghost invariant = { λ season.
        IsTrue (are_results (record {
          scores = season.scores.items;
          deductions = season.deductions.items;
        }))
        × (season.codes.items ≡ map score_code season.scores.items) };
}

impl Season {
    /// No score, and no deduction, for so many clubs and fixtures.
    pub fn unplayed(alloc: Global, clubs: usize, fixtures: usize) -> Result<Season, OutOfMemory>
        ensures { IfOk result (λ season. season ≡ unplayed_season clubs fixtures) }
    {
        let scores = vec![in alloc; None; fixtures]?;
        let codes = vec![in alloc; score_code(None); fixtures]?;
        let deductions = vec![in alloc; 0; clubs]?;
        Ok(Season {
            scores,
            codes,
            deductions,
        })
    }

    /// The scores in the order of the fixtures, `None` if a fixture is not played.
    pub fn scores(&self) -> &[Option<Score>]
        ensures scores { result.now ≡ self.now.scores }
        ensures within { IsTrue (are_results self.now) }
    {
        self.scores.as_slice()
    }

    /// The deductions in the order of the clubs, in points.
    pub fn deductions(&self) -> &[u8]
        ensures deductions { result.now ≡ self.now.deductions }
        ensures within { IsTrue (are_results self.now) }
    {
        self.deductions.as_slice()
    }

    /// The score of a fixture, by its number from 0.
    pub fn score(&self, fixture: u16) -> Option<Score>
        requires { fixture < length self.now.scores }
        ensures score { result ≡ slice_index_or self.now.scores fixture None }
        ensures within { IsTrue (is_score_or_none result) }
    {
        self.scores[fixture as usize]
    }

    /// The points taken off a club, by its number from 0.
    pub fn deducted(&self, club: u8) -> u8
        requires { club < length self.now.deductions }
        ensures { result ≡ slice_index self.now.deductions club }
    {
        self.deductions[club as usize]
    }

    /// Takes one event: `Set` puts its score, even over another, `Clear` takes the score away,
    /// `Deduct` puts its points in the place of the club's deduction.
    pub fn apply(&mut self, event: &Event)
        requires { IsEventOf self.old event.now }
        ensures { self.new ≡ event_applied self.old event.now }
    {
        match event {
            Event::Set { fixture, score } => self.write(*fixture, Some(*score)),
            Event::Clear { fixture } => self.write(*fixture, None),
            Event::Deduct { club, points } => self.deduct(*club, *points),
        }
    }

    fn deduct(&mut self, club: u8, points: u8)
        requires in_range { club < length self.old.deductions }
        requires may_be { points ≤ most_deduction }
        ensures { self.new ≡ record self.old {
          deductions = slice_set self.old.deductions club points;
        } }
    {
        self.deductions[club as usize] = points;
    }

    fn write(&mut self, fixture: u16, score: Option<Score>)
        requires in_range { fixture < length self.old.scores }
        requires may_be { IsTrue (is_score_or_none score) }
        ensures { self.new ≡ record self.old { scores = slice_set self.old.scores fixture score } }
    {
        self.codes[fixture as usize] = score_code(score);
        self.scores[fixture as usize] = score;
    }

    /// The same season once more.
    pub fn copy(&self, alloc: Global) -> Result<Season, OutOfMemory>
        ensures { IfOk result (λ season. season ≡ self.now) }
    {
        Ok(Season {
            scores: Vec::from_slice(alloc, self.scores.as_slice())?,
            codes: Vec::from_slice(alloc, self.codes.as_slice())?,
            deductions: Vec::from_slice(alloc, self.deductions.as_slice())?,
        })
    }

    /// Both seasons have the same scores and the same deductions.
    pub fn equals(&self, other: &Season) -> bool
        ensures { IsTrue result ↔ (self.now ≡ other.now) }
    {
        same_codes(self.codes.as_slice(), other.codes.as_slice())
            && same_points(self.deductions.as_slice(), other.deductions.as_slice())
    }
}

fn same_codes(codes: &[u16], others: &[u16]) -> bool
    ensures { IsTrue result ↔ (codes.now ≡ others.now) }
{
    codes == others
}

fn same_points(points: &[u8], others: &[u8]) -> bool
    ensures { IsTrue result ↔ (points.now ≡ others.now) }
{
    points == others
}
