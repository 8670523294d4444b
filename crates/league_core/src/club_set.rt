//! Sets of clubs: a number each, whose bit i stands for club i.
//!
//! Contracts see the clubs of a set in the order of the sheet. No call takes memory, and each takes
//! a few steps.

ghost use Rattle.std.specs.Prelude.{◌≡◌, ◌≢◌, ◌<◌, ◌≤◌, ◌==◌, ◌&&◌, ◌||◌, not, nat_lt, ℕ, [], ◌∷◌};
ghost use Rattle.std.specs.Prelude.{length, IsTrue, ◌↔◌};
ghost use Rattle.std.specs.List.{range_with_len};
ghost use Rattle.league_core.specs.game.Sums.{has_club};
ghost use Rattle.league_core.specs.game.ClubSets.{clubs_in};

/// A set of clubs: bit i stands for club i.
#[derive(Clone, Copy, Debug, PartialEq, Eq)]
pub struct ClubSet {
    pub bits: u32,
}

impl ClubSet {
    /// The set without a club.
    pub fn empty() -> ClubSet
        ensures { clubs_in result ≡ [] }
    {
        ClubSet { bits: 0 }
    }

    /// The clubs 0, 1 and so on, so many of them.
    pub fn first(clubs: u8) -> ClubSet
        requires { clubs ≤ 32 }
        ensures { clubs_in result ≡ range_with_len 0 clubs }
    {
        ClubSet {
            bits: ((1_u64 << clubs) - 1) as u32,
        }
    }

    /// The set of one club, by its number from 0; a set names only numbers below 32.
    pub fn single(club: u8) -> ClubSet
        requires { club < 32 }
        ensures { clubs_in result ≡ club ∷ [] }
    {
        ClubSet { bits: 1 << club }
    }

    /// The club, by its number from 0, is in the set; no number from 32 on is.
    pub fn has(self, club: u8) -> bool
        ensures { result ≡ has_club (clubs_in self) club }
    {
        club < 32 && (self.bits >> club) & 1 == 1
    }

    /// The set, with the club too if `keep` is true; the club by its number from 0, below 32.
    pub fn with_if(self, keep: bool, club: u8) -> ClubSet
        requires { club < 32 }
        ensures { (other : ℕ) → has_club (clubs_in result) other
            ≡ (has_club (clubs_in self) other || (keep && (club == other))) }
    {
        if keep {
            ClubSet {
                bits: self.bits | 1 << club,
            }
        } else {
            self
        }
    }

    /// The clubs of either set.
    pub fn union(self, other: ClubSet) -> ClubSet
        ensures { (club : ℕ) → has_club (clubs_in result) club
            ≡ (has_club (clubs_in self) club || has_club (clubs_in other) club) }
    {
        ClubSet {
            bits: self.bits | other.bits,
        }
    }

    /// The clubs of the set that are not in the other.
    pub fn without(self, other: ClubSet) -> ClubSet
        ensures { (club : ℕ) → has_club (clubs_in result) club
            ≡ (has_club (clubs_in self) club && not (has_club (clubs_in other) club)) }
    {
        ClubSet {
            bits: self.bits & !other.bits,
        }
    }

    /// The clubs that are in both sets.
    pub fn intersection(self, other: ClubSet) -> ClubSet
        ensures { (club : ℕ) → has_club (clubs_in result) club
            ≡ (has_club (clubs_in self) club && has_club (clubs_in other) club) }
    {
        ClubSet {
            bits: self.bits & other.bits,
        }
    }

    /// The clubs 0, 1 and so on, so many of them, without those of the set.
    pub fn others(self, clubs: u8) -> ClubSet
        requires { clubs ≤ 32 }
        ensures { (club : ℕ) → has_club (clubs_in result) club
            ≡ (nat_lt club clubs && not (has_club (clubs_in self) club)) }
    {
        ClubSet::first(clubs).without(self)
    }

    /// The first club, in the order of the sheet, of a set that has one.
    pub fn first_club(self) -> u8
        requires { clubs_in self ≢ [] }
        ensures member { IsTrue (has_club (clubs_in self) result) }
        ensures least { (club : ℕ) → IsTrue (has_club (clubs_in self) club) → result ≤ club }
    {
        self.bits.trailing_zeros() as u8
    }

    /// The set has no club.
    pub fn is_empty(self) -> bool
        ensures { IsTrue result ↔ (clubs_in self ≡ []) }
    {
        self.bits == 0
    }

    /// How many clubs the set has.
    pub fn len(self) -> u8
        ensures { result ≡ length (clubs_in self) }
    {
        self.bits.count_ones() as u8
    }
}
