//! Sums with a least and a greatest value.

ghost use Rattle.std.specs.Prelude.{◌≡◌, ◌+◌, ◌-ℤ◌, ◌≤ℤ◌, ℕ, pos};
ghost use Rattle.league_core.specs.search.PointRanges.{one_value, added, widened, range_of};
ghost use Rattle.check_bounds.specs.inside.Terms as looks;
ghost use Rattle.check_bounds.specs.inside.IntRanges.{as_sum_range, IsRangeWithin};

use crate::term::{Term, term_value};
use league_core::Score;

/// The least and the greatest value of a sum.
#[derive(Clone, Copy)]
pub struct IntRange {
    pub least: i64,
    pub greatest: i64,
}

impl IntRange {
    pub const ZERO: IntRange = IntRange {
        least: 0,
        greatest: 0,
    };

    pub fn only(value: i64) -> IntRange
        ensures { as_sum_range result ≡ one_value value }
    {
        IntRange {
            least: value,
            greatest: value,
        }
    }

    /// Both sums together.
    pub fn plus(self, other: IntRange) -> IntRange
        requires near { IsRangeWithin 1000000 self }
        requires other_near { IsRangeWithin 1000000 other }
        ensures { as_sum_range result ≡ added (as_sum_range self) (as_sum_range other) }
    {
        IntRange {
            least: self.least + other.least,
            greatest: self.greatest + other.greatest,
        }
    }

    /// The sum with so much taken off.
    pub fn less(self, off: i64) -> IntRange
        requires near { IsRangeWithin 1000000 self }
        requires few { (pos 0 ≤ℤ off) × (off ≤ℤ pos 10000) }
        ensures range { as_sum_range result
            ≡ added (as_sum_range self) (one_value (pos 0 -ℤ off)) }
        ensures near { (bound : ℕ) → IsRangeWithin bound self
            → IsRangeWithin (bound + 10000) result }
    {
        IntRange {
            least: self.least - off,
            greatest: self.greatest - off,
        }
    }

    /// The sum with one part in the place of another.
    pub fn exchanged(self, old: IntRange, new: IntRange) -> IntRange
        requires near { IsRangeWithin 2000 self }
        requires old_near { IsRangeWithin 255 old }
        requires new_near { IsRangeWithin 255 new }
        ensures { added (as_sum_range result) (as_sum_range old)
            ≡ added (as_sum_range self) (as_sum_range new) }
    {
        IntRange {
            least: self.least - old.least + new.least,
            greatest: self.greatest - old.greatest + new.greatest,
        }
    }

    // With one value more.
    fn widened(self, value: i64) -> IntRange
        ensures { as_sum_range result ≡ widened value (as_sum_range self) }
    {
        IntRange {
            least: value.min(self.least),
            greatest: value.max(self.greatest),
        }
    }
}

/// What the look sees in these scores, at the least and at the most.
pub fn look_range(scores: &[Score], look: Term) -> IntRange
    ensures range { as_sum_range result ≡ range_of (looks.term_value look) scores.now }
    ensures near { IsRangeWithin 255 result }
{
    if scores.is_empty() {
        return IntRange::ZERO;
    }
    let value = term_value(look, scores[0]);
    if scores.len() == 1 {
        return IntRange::only(value);
    }
    look_range(&scores[1..], look).widened(value)
}
