//! The rivals that a zone marks.

ghost use Rattle.std.specs.Prelude.{◌≡◌, ℕ, ◌<◌, ◌&&◌, ◌||◌, not, false};
ghost use Rattle.league_core.specs.game.Sums.{has_club};
ghost use Rattle.league_core.specs.game.ClubSets.{clubs_in};
ghost use Rattle.league_core.specs.game.Limits.{set_width};
ghost use Rattle.league_core.specs.search.Zones.{is_of_rival};
ghost use Rattle.score_box.specs.inside.Boxes.{IsSetOf, IsTestBelow};

use league_core::{ClubSet, Literal, Test};

/// The rivals with a yes literal and those with a no literal. A rival may have both.
#[derive(Clone, Copy)]
pub struct Marks {
    pub before: ClubSet,
    pub after: ClubSet,
}

impl Marks {
    pub fn none() -> Marks
        ensures before { IsSetOf result.before (λ club. false) }
        ensures after { IsSetOf result.after (λ club. false) }
    {
        Marks {
            before: ClubSet::empty(),
            after: ClubSet::empty(),
        }
    }

    /// The marks with those of one literal more.
    pub fn with(self, literal: &Literal) -> Marks
        requires { (fixtures : ℕ) × IsTestBelow fixtures set_width literal.now.test }
        ensures before { IsSetOf result.before (λ club. has_club (clubs_in self.before) club
            || (is_of_rival club literal.now.test && literal.now.yes)) }
        ensures after { IsSetOf result.after (λ club. has_club (clubs_in self.after) club
            || (is_of_rival club literal.now.test && not literal.now.yes)) }
    {
        match literal.test {
            Test::Rival { club } => Marks {
                before: self.before.with_if(literal.yes, club),
                after: self.after.with_if(!literal.yes, club),
            },
            _ => self,
        }
    }
}
