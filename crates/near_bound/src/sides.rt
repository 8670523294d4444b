//! Two clubs in a match.

ghost use Rattle.std.specs.Prelude.{◌≡◌, ◌&&◌, ◌||◌, ◌∷◌, [], if◌then◌else◌};
ghost use Rattle.league_core.specs.game.Sums.{has_club};

use league_core::Fixture;

/// Which sides of a match are one of two clubs.
#[derive(Clone, Copy)]
pub struct Sides {
    pub home: bool,
    pub away: bool,
}

impl Sides {
    pub fn of(fixture: Fixture, front: u8, back: u8) -> Sides
        ensures home { result.home ≡ has_club (front ∷ back ∷ []) fixture.home }
        ensures away { result.away ≡ has_club (front ∷ back ∷ []) fixture.away }
    {
        Sides {
            home: fixture.home == front || fixture.home == back,
            away: fixture.away == front || fixture.away == back,
        }
    }

    pub fn are_both(self) -> bool
        ensures { result ≡ (self.home && self.away) }
    {
        self.home && self.away
    }

    /// The away side if the home side is one of the two, and else the home side.
    pub fn other(self, fixture: Fixture) -> u8
        ensures { result ≡ (if self.home then fixture.away else fixture.home) }
    {
        if self.home {
            fixture.away
        } else {
            fixture.home
        }
    }

    pub fn are_any(self) -> bool
        ensures { result ≡ (self.home || self.away) }
    {
        self.home || self.away
    }
}
