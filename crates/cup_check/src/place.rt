//! A group of a cup with its place among the numbers of the cup.

ghost use Rattle.std.specs.Prelude.{◌≡◌, ◌<◌, ◌≤◌, ◌+◌, length};
ghost use Rattle.league_core.specs.declared.zone.Test.TheVariants.{Rival};
ghost use Rattle.cert_check.specs.ExpectedItems.{is_ending};
ghost use Rattle.cup_grammar.specs.PlacedGroups.{has_placed_club, has_placed_fixture, own_club};
ghost use Rattle.cup_grammar.specs.PlacedGroups.{own_fixture, own_test};
ghost use Rattle.cup_check.specs.inside.GroupPlaces.{IsPlaced};

use cup_groups::GroupStart;
use league_core::{Score, Season, Sheet, Test};
use std::marker::Model;

/// A group with what has been played of it, and where its numbers begin in the cup.
#[derive(Drop)]
pub struct GroupPlace<'a> {
    pub start: GroupStart,
    pub sheet: &'a Sheet,
    pub season: &'a Season,
}

impl<'a> Model for GroupPlace<'a> {
    ghost use Rattle.cup_grammar.specs.PlacedGroups.{PlacedGroup};
    ghost use Rattle.cup_check.specs.inside.GroupPlaces.{IsPlaced};

    ghost Value = { PlacedGroup };

    ghost view = { λ place. record {
      start = place.start;
      sheet = place.sheet.now;
      season = place.season.now;
    } };

    ghost invariant = { λ place. IsPlaced (record {
      start = place.start;
      sheet = place.sheet.now;
      season = place.season.now;
    }) };
}

impl<'a> GroupPlace<'a> {
    /// Hands on what the type keeps: a group within the limits of a cup, and a season of it.
    pub fn recall_place(&self)
        ensures { IsPlaced self.now }
    {
        let _sheet = self.sheet;
    }

    /// How many clubs the group has.
    pub fn clubs(&self) -> u8
        ensures { result ≡ length self.now.sheet.clubs }
    {
        self.sheet.clubs.len() as u8
    }

    /// How many fixtures it has.
    pub fn fixtures(&self) -> u16
        ensures value { result ≡ length self.now.sheet.fixtures }
        ensures season { length self.now.season.scores ≡ result }
    {
        self.sheet.fixtures.len() as u16
    }

    /// The number in the cup of a fixture of the group.
    pub fn cup_fixture(&self, own: u16) -> u16
        requires { own < length self.now.sheet.fixtures }
        ensures { result ≡ self.now.start.fixture + own }
    {
        self.start.fixture + own
    }

    /// A match of the group may end so.
    pub fn may_end(&self, score: Score) -> bool
        ensures { result ≡ is_ending self.now.sheet score }
    {
        score.home <= self.sheet.goal_limit && score.away <= self.sheet.goal_limit
    }

    /// The number in the cup of a club of the group.
    pub fn cup_club(&self, own: u8) -> u8
        requires { own < length self.now.sheet.clubs }
        ensures { result ≡ self.now.start.club + own }
    {
        self.start.club + own
    }

    /// The club of the cup is one of the group.
    pub fn has_club(&self, club: u8) -> bool
        ensures { result ≡ has_placed_club self.now club }
    {
        self.start.club <= club && ((club - self.start.club) as usize) < self.sheet.clubs.len()
    }

    fn has_fixture(&self, fixture: u16) -> bool
        ensures { result ≡ has_placed_fixture self.now fixture }
    {
        let first = self.start.fixture;
        first <= fixture && ((fixture - first) as usize) < self.sheet.fixtures.len()
    }

    /// The number in the group of a club of it.
    pub fn own_club(&self, club: u8) -> u8
        requires { self.now.start.club ≤ club }
        ensures { result ≡ own_club self.now club }
    {
        club - self.start.club
    }

    fn own_fixture(&self, fixture: u16) -> Option<u16>
        ensures { result ≡ own_fixture self.now fixture }
    {
        if self.has_fixture(fixture) {
            Some(fixture - self.start.fixture)
        } else {
            None
        }
    }

    /// A test by the numbers of the group, if what it names is of the group.
    pub fn own_test(&self, test: Test) -> Option<Test>
        ensures { result ≡ own_test self.now test }
    {
        match test {
            Test::Home { fixture } => Some(Test::Home {
                fixture: self.own_fixture(fixture)?,
            }),
            Test::Draw { fixture } => Some(Test::Draw {
                fixture: self.own_fixture(fixture)?,
            }),
            Test::HomeMost { fixture, most } => Some(Test::HomeMost {
                fixture: self.own_fixture(fixture)?,
                most,
            }),
            Test::AwayMost { fixture, most } => Some(Test::AwayMost {
                fixture: self.own_fixture(fixture)?,
                most,
            }),
            Test::Rival { club } => self.own_rival(club),
        }
    }

    fn own_rival(&self, club: u8) -> Option<Test>
        ensures { result ≡ own_test self.now (Rival club) }
    {
        if self.has_club(club) {
            Some(Test::Rival {
                club: self.own_club(club),
            })
        } else {
            None
        }
    }
}
