//! The range of one sum: its least and its greatest value.

ghost use Rattle.std.specs.Prelude.{◌≡◌, ◌-ℤ◌, pos, nat_lt, if◌then◌else◌};
ghost use Rattle.league_core.specs.search.PointRanges.{one_value, negated, added};
ghost use Rattle.tie_bound.specs.inside.IntRanges.{as_range, IsRangeNear, IsMargin};

/// The least and the greatest value of a sum.
#[derive(Clone, Copy)]
pub struct IntRange {
    pub least: i32,
    pub greatest: i32,
}

/// The goals of one side over the scores of a match.
#[derive(Clone, Copy)]
pub struct GoalRange {
    pub least: u8,
    pub most: u8,
}

impl IntRange {
    /// A sum that has but one value.
    pub fn only(value: i32) -> IntRange
        ensures { as_range result ≡ one_value value }
    {
        IntRange {
            least: value,
            greatest: value,
        }
    }

    /// Both sums together.
    pub fn plus(self, other: IntRange) -> IntRange
        requires near { IsRangeNear 10000000 (as_range self) }
        requires other_near { IsRangeNear 10000000 (as_range other) }
        ensures { as_range result ≡ added (as_range self) (as_range other) }
    {
        IntRange {
            least: self.least + other.least,
            greatest: self.greatest + other.greatest,
        }
    }

    /// The sum with its sign turned round.
    pub fn negated(self) -> IntRange
        requires { IsRangeNear 10000000 (as_range self) }
        ensures { as_range result ≡ negated (as_range self) }
    {
        IntRange {
            least: -self.greatest,
            greatest: -self.least,
        }
    }

    /// The sum if it counts, and nothing otherwise.
    pub fn only_if(self, counts: bool) -> IntRange
        ensures { as_range result ≡ (if counts then as_range self else one_value (pos 0)) }
    {
        if counts { self } else { IntRange::only(0) }
    }
}

impl GoalRange {
    pub fn as_int_range(self) -> IntRange
        ensures { as_range result ≡ record { least = pos self.least; greatest = pos self.most } }
    {
        IntRange {
            least: i32::from(self.least),
            greatest: i32::from(self.most),
        }
    }

    /// By how much a side with these goals can win over one with those of the other.
    pub fn margin(self, other: GoalRange) -> IntRange
        ensures { IsMargin self other (as_range result) }
    {
        IntRange {
            least: closest(self.least, other.most),
            greatest: i32::from(self.most) - i32::from(other.least),
        }
    }
}

// The least that a win can be won by, if the side has at least so many goals and the other at most.
fn closest(least: u8, most: u8) -> i32
    ensures { result ≡ (if nat_lt most least then pos least -ℤ pos most else pos 1) }
{
    if least > most {
        i32::from(least) - i32::from(most)
    } else {
        1
    }
}
