//! Ranges of points, and how they are halved.

ghost use Rattle.std.specs.Prelude.{◌≤ℤ◌, ◌<ℤ◌, ◌+ℤ◌, pos};
ghost use Rattle.league_core.specs.game.Limits.{least_points, most_points};
ghost use Rattle.qual_scores.specs.Bisections.{IsMiddleOf};

/// Points from the one to the other, both included.
#[derive(Clone, Copy)]
pub struct PointRange {
    pub low: i32,
    pub high: i32,
}

impl PointRange {
    /// Half the sum of both ends, rounded down.
    pub fn middle(self) -> i32
        requires least { least_points ≤ℤ self.low }
        requires several { self.low <ℤ self.high }
        requires most { self.high ≤ℤ (most_points +ℤ pos 1) }
        ensures { IsMiddleOf self result }
    {
        let half = (self.high - self.low) as u32 / 2;
        self.low + half as i32
    }
}
