//! A finish as it is walked over: the scores of the open matches, and what all matches add up to.

use crate::lead::Record;
use crate::row::{away_change, away_row, home_change, home_row, joined};
use league_core::{Event, Fixture, OutOfMemory, Score, Season, Sheet};
use score_box::Totals;
use std::alloc::Global;

/// A match that is not played, and the score that it has here.
#[derive(Clone, Copy, Debug, PartialEq, Eq)]
pub struct OpenMatch {
    pub fixture: u16,
    pub sides: Fixture,
    pub score: Score,
}

impl OpenMatch {
    /// The club is one of its sides.
    pub fn is_of(&self, club: u8) -> bool {
        self.sides.home == club || self.sides.away == club
    }

    /// The other side.
    pub fn opponent(&self, club: u8) -> u8 {
        if self.sides.home == club {
            self.sides.away
        } else {
            self.sides.home
        }
    }

    /// Its points for a club that plays in it.
    pub fn points_of(&self, club: u8) -> i32 {
        if self.sides.home == club {
            home_row(self.score).points
        } else {
            away_row(self.score).points
        }
    }
}

/// A finish, by its open matches, and sums of all matches: of each club, less the points taken off
/// it, and of each club against each other what counts among a group. What is not there has no
/// sums, and takes no score.
#[derive(Drop)]
pub struct Board {
    open: Vec<OpenMatch>,
    rows: Vec<Totals>,
    pairs: Vec<Record>,
}

impl Board {
    /// The finish in which all open matches end 0:0.
    pub fn of(alloc: Global, sheet: &Sheet, season: &Season) -> Result<Board, OutOfMemory> {
        let mut board = Board {
            open: Vec::new(alloc),
            rows: vec![in alloc; Totals::NONE; 24]?,
            pairs: vec![in alloc; Record::NONE; 576]?,
        };
        board.take_deductions(season.deductions());
        board.take_matches(sheet.fixtures.as_slice(), season.scores())?;
        Ok(board)
    }

    /// The same finish, to be changed by itself.
    pub fn copy(&self, alloc: Global) -> Result<Board, OutOfMemory> {
        let open = Vec::from_slice(alloc, self.open.as_slice())?;
        let rows = Vec::from_slice(alloc, self.rows.as_slice())?;
        let pairs = Vec::from_slice(alloc, self.pairs.as_slice())?;
        Ok(Board { open, rows, pairs })
    }

    fn take_deductions(&mut self, deductions: &[u8]) {
        for (club, points) in deductions.iter().enumerate() {
            if club < self.rows.len() {
                self.rows[club].points = -i32::from(*points);
            }
        }
    }

    fn take_matches(
        &mut self,
        fixtures: &[Fixture],
        scores: &[Option<Score>],
    ) -> Result<(), OutOfMemory> {
        for (fixture, sides) in fixtures.iter().enumerate() {
            let played = scores.get(fixture).copied().flatten();
            self.take_match(fixture.min(600) as u16, *sides, played)?;
        }
        Ok(())
    }

    fn take_match(
        &mut self,
        fixture: u16,
        sides: Fixture,
        played: Option<Score>,
    ) -> Result<(), OutOfMemory> {
        let score = played.unwrap_or(Score { home: 0, away: 0 });
        if played.is_none() {
            self.open.push(OpenMatch {
                fixture,
                sides,
                score,
            })?;
        }
        self.add(sides, &home_row(score), &away_row(score));
        Ok(())
    }

    // Adds to the sums of both sides.
    fn add(&mut self, sides: Fixture, home: &Totals, away: &Totals) {
        add_at(&mut self.rows, usize::from(sides.home), home);
        add_at(&mut self.rows, usize::from(sides.away), away);
        add_record(&mut self.pairs, pair_at(sides.home, sides.away), home);
        add_record(&mut self.pairs, pair_at(sides.away, sides.home), away);
    }

    /// How many matches are open.
    pub fn count(&self) -> u16 {
        self.open.len().min(600) as u16
    }

    /// The open match at a place among them.
    pub fn at(&self, place: u16) -> Option<OpenMatch> {
        self.open.get(usize::from(place)).copied()
    }

    /// How many open matches each club has.
    pub fn open_counts(&self) -> [i32; 24] {
        let mut counts = [0; 24];
        for open in &self.open {
            add_count(&mut counts, open.sides.home);
            add_count(&mut counts, open.sides.away);
        }
        counts
    }

    /// What all matches of a club add up to; its points are less those taken off.
    pub fn row(&self, club: u8) -> Totals {
        row_at(&self.rows, usize::from(club))
    }

    /// What counts of the matches of a club against another.
    pub fn pair(&self, club: u8, other: u8) -> Record {
        let at = pair_at(club, other);
        self.pairs.get(at).copied().unwrap_or(Record::NONE)
    }

    /// Gives an open match, by its place among them, a score.
    pub fn put(&mut self, place: u16, score: Score) {
        let at = usize::from(place);
        if at < self.open.len() {
            let OpenMatch {
                sides,
                score: old,
                ..
            } = self.open[at];
            if old != score {
                self.open[at].score = score;
                self.add(sides, &home_change(old, score), &away_change(old, score));
            }
        }
    }

    /// Gives each open match the score that it has among these, by the fixtures' numbers.
    pub fn put_all(&mut self, scores: &[Option<Score>]) {
        for place in 0..self.count() {
            if let Some(open) = self.at(place) {
                let given = scores.get(usize::from(open.fixture)).copied().flatten();
                self.put(place, given.unwrap_or(open.score));
            }
        }
    }

    /// The scores of two open matches of a club with its results swapped, as it sees them.
    pub fn swapped(&self, one: u16, other: u16, club: u8) -> Option<(Score, Score)> {
        let (first, second) = (self.at(one)?, self.at(other)?);
        let is_turned = (first.sides.home == club) != (second.sides.home == club);
        Some((
            turned_if(is_turned, second.score),
            turned_if(is_turned, first.score),
        ))
    }

    /// The season with these scores of its open matches.
    pub fn ended(&self, alloc: Global, season: &Season) -> Result<Season, OutOfMemory> {
        let mut ended = season.copy(alloc)?;
        for open in &self.open {
            give(&mut ended, open);
        }
        Ok(ended)
    }
}

// The score seen from the other side, if it is to be turned.
fn turned_if(is_turned: bool, score: Score) -> Score {
    if is_turned {
        Score {
            home: score.away,
            away: score.home,
        }
    } else {
        score
    }
}

// Gives a season the score of an open match, where that may be.
fn give(season: &mut Season, open: &OpenMatch) {
    let OpenMatch { fixture, score, .. } = *open;
    let is_there = usize::from(fixture) < season.scores().len();
    if is_there && score.home <= 99 && score.away <= 99 {
        season.apply(&Event::Set { fixture, score });
    }
}

fn add_count(counts: &mut [i32; 24], club: u8) {
    if club < 24 {
        counts[club as usize] = counts[club as usize].saturating_add(1);
    }
}

// The place of a club's row against another.
fn pair_at(club: u8, other: u8) -> usize {
    24 * usize::from(club) + usize::from(other)
}

fn row_at(rows: &[Totals], at: usize) -> Totals {
    rows.get(at).copied().unwrap_or(Totals::NONE)
}

fn add_record(records: &mut [Record], at: usize, more: &Totals) {
    if at < records.len() {
        records[at] = records[at].with(&Record::of(more));
    }
}

fn add_at(rows: &mut [Totals], at: usize, more: &Totals) {
    if at < rows.len() {
        rows[at] = joined(&rows[at], more);
    }
}
