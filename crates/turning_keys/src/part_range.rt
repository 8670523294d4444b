//! What is left of one part of a key, and how it is halved.

ghost use Rattle.std.specs.Prelude.{◌≡◌, ◌↔◌, ◌<ℤ◌, ◌≤ℤ◌, ◌+ℤ◌, ◌-ℤ◌, pos, IsTrue};
ghost use Rattle.cup_sheet.specs.KeyBounds as bounds;
ghost use Rattle.turning_keys.specs.inside.TurningSearches.{range_spanned};

use league_core::Claim;

/// The numbers from the one to the other, both included.
#[derive(Clone, Copy)]
pub(crate) struct PartRange {
    pub least: i32,
    pub greatest: i32,
}

impl PartRange {
    /// More than one number is left.
    pub(crate) fn has_several(&self) -> bool
        ensures { IsTrue result ↔ (self.now.least <ℤ self.now.greatest) }
    {
        self.least < self.greatest
    }

    /// The least number: the only one, where no more are left.
    pub(crate) fn first(&self) -> i32
        ensures { result ≡ self.now.least }
    {
        self.least
    }

    // Half of what lies between the ends, rounded down.
    fn half_width(&self) -> i32
        requires { self.now.least <ℤ self.now.greatest }
        ensures { ((result +ℤ result) ≤ℤ (self.now.greatest -ℤ self.now.least))
            × ((self.now.greatest -ℤ self.now.least) ≤ℤ (result +ℤ result +ℤ pos 1)) }
    {
        let width = (i64::from(self.greatest) - i64::from(self.least)) as u32;
        (width / 2) as i32
    }

    /// Half the sum of both ends: rounded down for missing, up for qualifying.
    pub(crate) fn middle(&self, claim: Claim) -> i32
        requires { self.now.least <ℤ self.now.greatest }
        ensures { bounds.IsMidpoint claim (range_spanned self.now) result }
    {
        match claim {
            Claim::Outside => self.least + self.half_width(),
            Claim::Inside => self.greatest - self.half_width(),
        }
    }

    /// The half with the middle.
    pub(crate) fn near_half(&self, claim: Claim, middle: i32) -> PartRange
        ensures { range_spanned result ≡ bounds.near_half claim (range_spanned self.now) middle }
    {
        match claim {
            Claim::Outside => span(self.least, middle),
            Claim::Inside => span(middle, self.greatest),
        }
    }

    /// The half without it.
    pub(crate) fn far_half(&self, claim: Claim, middle: i32) -> PartRange
        requires several { self.now.least <ℤ self.now.greatest }
        requires middle { bounds.IsMidpoint claim (range_spanned self.now) middle }
        ensures { range_spanned result ≡ bounds.far_half claim (range_spanned self.now) middle }
    {
        match claim {
            Claim::Outside => span(middle + 1, self.greatest),
            Claim::Inside => span(self.least, middle - 1),
        }
    }
}

/// The range with these ends.
pub(crate) fn span(least: i32, greatest: i32) -> PartRange
    ensures { range_spanned result ≡ record { least = least; greatest = greatest } }
{
    PartRange { least, greatest }
}
