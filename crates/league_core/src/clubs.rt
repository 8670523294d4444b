//! The walk over the clubs of a set.
//!
//! Contracts see a walk as the list of the clubs that it has still to come to, in the order of the
//! sheet. No call takes memory, and each takes a few steps.

ghost use Rattle.std.specs.Prelude.{◌≡◌, ◌<◌, ℕ, IsTrue, length};
ghost use Rattle.std.specs.Iterator.{at_most};
ghost use Rattle.std.specs.Map.Iter.{TakesFirst, GivesInOrder};
ghost use Rattle.league_core.specs.game.ClubSets.{clubs_in};
ghost use Rattle.league_core.specs.game.Sums.{has_club};
ghost use Rattle.league_core.specs.inside.KeptClubs.{AreKept};

use crate::club_set::ClubSet;
use std::marker::Model;

/// The clubs of a set that a walk has still to come to.
#[derive(Debug, Drop)]
pub struct Clubs {
    left: ClubSet,
}

impl Model for Clubs {
    ghost use Rattle.std.specs.Prelude.{ℕ, List};
    ghost use Rattle.league_core.specs.game.ClubSets.{clubs_in};

    ghost Value = { List ℕ };

    ghost view = { λ clubs. clubs_in clubs.left };
}

impl ClubSet {
    /// The clubs of the set, one after another, in the order of the sheet.
    pub fn clubs(self) -> Clubs
        ensures all { result ≡ clubs_in self }
        ensures runs { GivesInOrder ℕ }
    {
        Clubs { left: self }
    }

    /// The clubs of the set for which the test is true; it is called for these clubs alone.
    pub fn keep<F: Fn(u8) -> bool>(self, test: F) -> ClubSet
        requires { (club : ℕ) → club < 32 → IsTrue (has_club (clubs_in self) club)
            → F.pre test club }
        ensures { AreKept (F.post test) (clubs_in self) (clubs_in result) }
    {
        let mut found = ClubSet::empty();
        for club in self.clubs() {
            found = found.with_if(test(club), club);
        }
        found
    }
}

impl Iterator for Clubs {
    type Item = u8;

    ghost next_gives = { TakesFirst (λ (club : ℕ). club) };

    ghost remaining = { λ clubs. at_most (length clubs) };

    fn next(&mut self) -> Option<u8> {
        if self.left.is_empty() {
            return None;
        }
        let club = self.left.first_club();
        self.left = self.left.without(ClubSet::single(club));
        Some(club)
    }
}
