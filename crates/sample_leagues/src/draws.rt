//! Numbers that look drawn, the same at each run.

ghost use Rattle.std.specs.Prelude.{◌<◌};

/// A fixed linear generator.
#[derive(Drop)]
pub struct Draws {
    state: u32,
}

impl Draws {
    /// The numbers that this seed begins.
    pub fn new(seed: u32) -> Draws {
        Draws { state: seed }
    }

    /// The next number below the bound.
    pub fn below(&mut self, bound: u8) -> u8
        requires { 0 < bound }
        ensures { result < bound }
    {
        self.state = self
            .state
            .wrapping_mul(1_664_525)
            .wrapping_add(1_013_904_223);
        ((self.state >> 16) % u32::from(bound)) as u8
    }

    /// One of two.
    pub fn flip(&mut self) -> bool {
        self.below(2) == 0
    }
}
