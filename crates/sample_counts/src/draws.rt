//! The numbers of a seed.

ghost use Rattle.std.specs.Prelude.{◌≡◌};
ghost use Rattle.sample_counts.specs.Samples.{next_state, drawn_from};

/// A linear generator of 64 bits; its upper bits are drawn.
#[derive(Drop)]
pub(crate) struct Draws {
    pub(crate) state: u64,
}

impl Draws {
    /// The next number, 0 to 3.
    pub(crate) fn draw(&mut self) -> u8
        ensures state { self.new.state ≡ next_state self.old.state }
        ensures value { result ≡ drawn_from self.new.state }
    {
        self.state = self
            .state
            .wrapping_mul(6_364_136_223_846_793_005)
            .wrapping_add(1_442_695_040_888_963_407);
        (self.state / 8_589_934_592 % 4) as u8
    }
}
