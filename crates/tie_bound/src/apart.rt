//! The clubs that are surely above a club and those that are surely below it.

ghost use Rattle.std.specs.Prelude.{◌≡◌, ◌≤◌, ◌&&◌, ℕ, nat_lt, not};
ghost use Rattle.league_core.specs.game.Sums.{has_club};
ghost use Rattle.league_core.specs.game.ClubSets.{clubs_in};
ghost use Rattle.league_core.specs.search.SureOrder.{is_above, is_below};
ghost use Rattle.tie_bound.specs.inside.Answers.{answer_at};

use crate::answer_sets::Answers;
use league_core::ClubSet;

/// Clubs above a club, and clubs below it. Either set may have clubs that are not of the sheet.
#[derive(Clone, Copy)]
pub struct Apart {
    pub above: ClubSet,
    pub below: ClubSet,
}

impl Apart {
    /// Those that these answers put there.
    pub fn by(answers: Answers) -> Apart
        ensures above { (x : ℕ) → has_club (clubs_in result.above) x
            ≡ is_above (answer_at answers x) }
        ensures below { (x : ℕ) → has_club (clubs_in result.below) x
            ≡ is_below (answer_at answers x) }
    {
        Apart {
            above: answers.those_above(),
            below: answers.those_below(),
        }
    }

    /// All of so many clubs that may be above, since they are not below; and the other way round.
    pub fn widened(self, clubs: u8) -> Apart
        requires { clubs ≤ 32 }
        ensures above { (x : ℕ) → has_club (clubs_in result.above) x
            ≡ (nat_lt x clubs && not (has_club (clubs_in self.below) x)) }
        ensures below { (x : ℕ) → has_club (clubs_in result.below) x
            ≡ (nat_lt x clubs && not (has_club (clubs_in self.above) x)) }
    {
        Apart {
            above: self.below.others(clubs),
            below: self.above.others(clubs),
        }
    }
}
