//! Numbers that look drawn, the same at each run.

ghost use Rattle.std.specs.Prelude.{◌<◌};

use league_core::{Claim, Question};

/// A fixed linear generator.
#[derive(Drop)]
pub struct Draws {
    state: u64,
}

impl Draws {
    /// The numbers that a question begins: by its club, its line and its claim.
    pub fn of(question: &Question) -> Draws {
        let side = match question.claim {
            Claim::Inside => 0,
            Claim::Outside => 1,
        };
        let seed = u64::from(question.club) * 64 + u64::from(question.line) * 2 + side;
        Draws {
            state: seed.wrapping_mul(0x9e37_79b9_7f4a_7c15),
        }
    }

    /// The next number below the bound.
    pub fn below(&mut self, bound: u32) -> u32
        requires { 0 < bound }
        ensures { result < bound }
    {
        self.state = self
            .state
            .wrapping_mul(6_364_136_223_846_793_005)
            .wrapping_add(1_442_695_040_888_963_407);
        ((self.state >> 33) % u64::from(bound)) as u32
    }

    /// One of a list; nothing of an empty one.
    pub fn one_of(&mut self, places: &[u16]) -> Option<u16> {
        if places.is_empty() {
            return None;
        }
        let at = self.below(places.len().min(600) as u32);
        Some(places[at as usize])
    }
}
