//! Numbers of points: what the outcomes that a cell has left give to its sides, and both ends of
//! what a set of clubs can have.

ghost use Rattle.std.specs.Prelude.{◌≡◌, pos, neg_ℤ, ◌+ℤ◌, ◌≤ℤ◌};

mod left;
mod outcomes;
mod worth;

pub use left::OutcomesLeft;
pub use outcomes::MatchPoints;
pub(crate) use worth::Worth;

/// Two numbers of points, for the least and for the most: those that a set of clubs can have
/// together, or what is added to them. Of what is added the first may be the greater.
#[derive(Clone, Copy, Debug, PartialEq, Eq)]
pub struct PointRange {
    pub least: i32,
    pub most: i32,
}

impl PointRange {
    /// Both ends of two ranges together.
    pub(crate) fn with(self, other: PointRange) -> PointRange
        requires least { (neg_ℤ (pos 1000000) ≤ℤ self.least) × (self.least ≤ℤ pos 1000000) }
        requires most { (neg_ℤ (pos 1000000) ≤ℤ self.most) × (self.most ≤ℤ pos 1000000) }
        requires other_least { (neg_ℤ (pos 1000000) ≤ℤ other.least)
            × (other.least ≤ℤ pos 1000000) }
        requires other_most { (neg_ℤ (pos 1000000) ≤ℤ other.most) × (other.most ≤ℤ pos 1000000) }
        ensures least { result.least ≡ self.least +ℤ other.least }
        ensures most { result.most ≡ self.most +ℤ other.most }
    {
        PointRange {
            least: self.least + other.least,
            most: self.most + other.most,
        }
    }
}
