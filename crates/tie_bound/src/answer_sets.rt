//! What is sure of each club against one club, kept as three sets: to take a club in, and to read
//! off all clubs of an answer, is a few steps.

ghost use Rattle.std.specs.Prelude.{◌≡◌, ℕ, ◌<◌, ◌≤◌, ◌==◌, ◌&&◌, nat_lt, if◌then◌else◌};
ghost use Rattle.league_core.specs.declared.sure.Sure.TheVariants.{Unknown};
ghost use Rattle.league_core.specs.game.Sums.{has_club};
ghost use Rattle.league_core.specs.game.ClubSets.{clubs_in};
ghost use Rattle.league_core.specs.search.SureOrder.{is_above, is_below, is_level};
ghost use Rattle.tie_bound.specs.inside.Answers.{answer_at, IsStepIn};

use crate::order::is_answer;
use league_core::{ClubSet, Sure};

/// The clubs that are above the one, below it and level with it. Of a club in none of the sets
/// nothing is sure; one that is in several counts in the first.
#[derive(Clone, Copy)]
pub struct Answers {
    pub above: ClubSet,
    pub below: ClubSet,
    pub level: ClubSet,
}

impl Answers {
    /// Nothing is sure.
    pub fn open() -> Answers
        ensures { (club : ℕ) → answer_at result club ≡ Unknown }
    {
        Answers {
            above: ClubSet::empty(),
            below: ClubSet::empty(),
            level: ClubSet::empty(),
        }
    }

    /// The answer of a club.
    pub fn of(self, club: u8) -> Sure
        ensures { result ≡ answer_at self club }
    {
        let above = self.above.has(club);
        let below = self.below.has(club);
        let level = self.level.has(club);
        if above {
            Sure::Above
        } else if below {
            Sure::Below
        } else if level {
            Sure::Level
        } else {
            Sure::Unknown
        }
    }

    /// With the answer of a club of which nothing was sure.
    pub fn with(self, club: u8, answer: Sure) -> Answers
        requires in_range { club < 32 }
        requires nothing { answer_at self club ≡ Unknown }
        ensures { (other : ℕ) → answer_at result other
            ≡ (if club == other then answer else answer_at self other) }
    {
        Answers {
            above: self.above.with_if(is_answer(Sure::Above, answer), club),
            below: self.below.with_if(is_answer(Sure::Below, answer), club),
            level: self.level.with_if(is_answer(Sure::Level, answer), club),
        }
    }

    /// The answers, and for those clubs of a group that are level so far what is said next.
    pub fn then_in(self, group: ClubSet, next: Answers) -> Answers
        ensures { IsStepIn (clubs_in group) (answer_at next) self result }
    {
        let decided = self.above.union(self.below);
        let level = self.level.without(decided).intersection(group);
        Answers {
            above: self.above.union(level.intersection(next.above)),
            below: self.below.union(level.intersection(next.below)),
            level: self
                .level
                .without(level)
                .union(level.intersection(next.level)),
        }
    }

    /// The clubs above the one.
    pub fn those_above(self) -> ClubSet
        ensures { (club : ℕ) → has_club (clubs_in result) club ≡ is_above (answer_at self club) }
    {
        self.above
    }

    /// The clubs below it.
    pub fn those_below(self) -> ClubSet
        ensures { (club : ℕ) → has_club (clubs_in result) club ≡ is_below (answer_at self club) }
    {
        self.below.without(self.above)
    }

    /// Of so many clubs those level with it.
    pub fn those_level(self, clubs: u8) -> ClubSet
        requires { clubs ≤ 32 }
        ensures { (club : ℕ) → has_club (clubs_in result) club
            ≡ (nat_lt club clubs && is_level (answer_at self club)) }
    {
        let decided = self.above.union(self.below);
        self.level
            .without(decided)
            .intersection(ClubSet::first(clubs))
    }
}
