//! What all zones of a season share: its open matches, and what the played ones add up to.

ghost use Rattle.std.specs.Prelude.{◌≡◌, ◌≢◌, ◌<◌, ◌≤◌, ◌+◌, ◌*◌, ℕ, length, take};
ghost use Rattle.league_core.specs.game.Seasons.{IsLeague};
ghost use Rattle.near_bound.specs.inside.Margins.{IsMarginWithin};
ghost use Rattle.near_bound.specs.inside.PlayedParts.{IsPlayedPart, open_of, club_margin};
ghost use Rattle.near_bound.specs.inside.PlayedParts.{pair_margin, AreSidesIn, ArePartsNear};
ghost use Rattle.near_bound.specs.inside.PlayedParts.{AddsSide, AddsPlayedMatch};
ghost use Rattle.near_bound.specs.inside.PlayedParts.{AddsOpen, TakesFixture};

use crate::margin::{Margin, worth_of_side};
use league_core::{Fixture, Score, Season, Sheet};

/// The fixtures without a result, and the six sums of each club from those with one: over all of
/// them, and over those against each rival.
#[derive(Clone, Copy)]
pub struct PlayedPart {
    unplayed: [u16; 600],
    unplayed_count: u16,
    clubs: [Margin; 32],
    // Against a rival: at 32 times the club's number and the rival's.
    pairs: [Margin; 1024],
}

impl PlayedPart {
    /// That of a season, in one walk over its fixtures.
    pub fn of(sheet: &Sheet, season: &Season) -> PlayedPart
        requires { IsLeague sheet.now season.now }
        ensures { IsPlayedPart sheet.now season.now result }
    {
        let mut part = PlayedPart {
            unplayed: [0; 600],
            unplayed_count: 0,
            clubs: [Margin::NONE; 32],
            pairs: [Margin::NONE; 1024],
        };
        let fixtures = sheet.fixtures.as_slice();
        let scores = season.scores();
        for i in 0..fixtures.len() {
            part.take(i as u16, fixtures[i], scores[i]);
        }
        part
    }

    /// The fixtures without a result, in the order of the sheet.
    pub fn open(&self) -> &[u16]
        requires { self.now.unplayed_count ≤ 600 }
        ensures { result.now ≡ open_of self.now }
    {
        &self.unplayed[..self.unplayed_count as usize]
    }

    /// The sums of a club.
    pub fn of_club(&self, club: u8) -> &Margin
        requires in_range { club < length self.now.clubs }
        ensures { result.now ≡ club_margin self.now club }
    {
        &self.clubs[club as usize]
    }

    /// The sums of a club against a rival.
    pub fn of_pair(&self, club: u8, rival: u8) -> &Margin
        requires in_range { 32 * club + rival < length self.now.pairs }
        ensures { result.now ≡ pair_margin self.now club rival }
    {
        &self.pairs[place_of(club, rival)]
    }

    fn take(&mut self, fixture: u16, sides: Fixture, score: Option<Score>)
        requires sides { AreSidesIn sides }
        requires few { self.old.unplayed_count ≤ fixture }
        requires in_range { fixture < 600 }
        requires near { ArePartsNear self.old 600 }
        ensures { TakesFixture fixture sides score self.old self.new }
    {
        match score {
            Some(score) => self.add(sides, score),
            None => self.push_open(fixture),
        }
    }

    fn push_open(&mut self, fixture: u16)
        requires { self.old.unplayed_count < 600 }
        ensures { AddsOpen fixture self.old self.new }
    {
        self.unplayed[self.unplayed_count as usize] = fixture;
        self.unplayed_count = self.unplayed_count + 1;
    }

    fn add(&mut self, sides: Fixture, score: Score)
        requires sides { AreSidesIn sides }
        requires near { ArePartsNear self.old 600 }
        ensures { AddsPlayedMatch sides score self.old self.new }
    {
        let home = worth_of_side(score.home, score.away, false);
        let away = worth_of_side(score.away, score.home, true);
        self.add_side(sides.home, sides.away, &home);
        self.add_side(sides.away, sides.home, &away);
    }

    fn add_side(&mut self, club: u8, rival: u8, worth: &Margin)
        requires in_range { club < 32 }
        requires rival_in_range { rival < 32 }
        requires near { ArePartsNear self.old 601 }
        requires worth_near { IsMarginWithin 255 worth.now }
        ensures { AddsSide club rival worth.now self.old self.new }
    {
        let all = self.of_club(club).plus(worth);
        let pair = self.of_pair(club, rival).plus(worth);
        self.clubs[club as usize] = all;
        self.pairs[place_of(club, rival)] = pair;
    }
}

fn place_of(club: u8, rival: u8) -> usize
    ensures { result ≡ 32 * club + rival }
{
    32 * club as usize + rival as usize
}
