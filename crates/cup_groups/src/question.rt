//! A question about a club of a group, and what of it is asked of the group's table.

ghost use Rattle.std.specs.Prelude.{◌≡◌};
ghost use Rattle.league_core.specs.game.Questions.{full_question};
ghost use Rattle.club_keys.specs.inside.KeyEnds.{key_parts};
ghost use Rattle.cup_sheet.specs.CupLimits.{direct_places};
ghost use Rattle.cup_sheet.specs.GroupQuestions as asked;
ghost use Rattle.cup_groups.specs.inside.KindQuestions.{asked_key};

use club_keys::{ClubKey, KeyEnds};
use cup_sheet::GroupKind;
use league_core::limits::{MOST_DEDUCTION, MOST_POINTS};
use league_core::{Claim, Question};

/// So many places of a group qualify by themselves.
pub const DIRECT_PLACES: u8 = 1;

/// What is asked of a club of a group.
#[derive(Clone, Copy, Debug, PartialEq, Eq)]
pub struct KindQuestion {
    pub kind: GroupKind,
    /// The club, by its number in the group, from 0.
    pub club: u8,
    /// The bound of its key. A kind about the place alone does not look at it.
    pub key: ClubKey,
}

impl KindQuestion {
    /// What is asked of the club's place; of a candidate that it is no worse than that.
    pub fn place(&self) -> Question
        ensures value { result
            ≡ asked.place_question direct_places self.now.kind self.now.club }
        ensures club { result.club ≡ self.now.club }
    {
        match self.kind {
            GroupKind::Top => full_question(self.club, DIRECT_PLACES, Claim::Inside),
            GroupKind::Below => full_question(self.club, DIRECT_PLACES + 1, Claim::Outside),
            GroupKind::SecondLess
            | GroupKind::SecondAtLeast
            | GroupKind::SecondMore
            | GroupKind::SecondAtMost => self.reach(),
        }
    }

    /// Whether the club can end as the candidate or better.
    pub fn reach(&self) -> Question
        ensures value { result ≡ asked.reach_question direct_places self.now.club }
        ensures club { result.club ≡ self.now.club }
    {
        full_question(self.club, DIRECT_PLACES + 1, Claim::Inside)
    }

    /// Whether the club can end after the direct places.
    pub fn after(&self) -> Question
        ensures value { result ≡ asked.after_question direct_places self.now.club }
        ensures club { result.club ≡ self.now.club }
    {
        full_question(self.club, DIRECT_PLACES, Claim::Outside)
    }

    /// The kind is about the place alone.
    pub fn is_of_place(&self) -> bool
        ensures { result ≡ asked.is_of_place self.now.kind }
    {
        matches!(self.kind, GroupKind::Top | GroupKind::Below)
    }

    /// A key of the club is on the side of the bound that the kind asks for.
    pub fn is_on_side(&self, key: &ClubKey) -> bool
        ensures { result ≡ asked.is_key_on_side self.now.kind
            (asked_key self.now.kind (key_parts self.now.key)) (key_parts key.now) }
    {
        match self.kind {
            GroupKind::Top | GroupKind::Below => true,
            GroupKind::SecondLess => !key.is_from(&self.key),
            GroupKind::SecondAtLeast => key.is_from(&self.key),
            GroupKind::SecondMore => !self.key.is_from(key),
            GroupKind::SecondAtMost => self.key.is_from(key),
        }
    }

    /// No key between both ends is on that side.
    pub fn is_refuted_by(&self, ends: &KeyEnds) -> bool
        ensures { result ≡ asked.is_key_refuted self.now.kind
            (asked_key self.now.kind (key_parts self.now.key)) (key_parts ends.now.low)
            (key_parts ends.now.high) }
    {
        match self.kind {
            GroupKind::Top | GroupKind::Below => false,
            GroupKind::SecondLess => ends.low.is_from(&self.key),
            GroupKind::SecondAtLeast => !ends.high.is_from(&self.key),
            GroupKind::SecondMore => self.key.is_from(&ends.high),
            GroupKind::SecondAtMost => !self.key.is_from(&ends.low),
        }
    }
}

// The question about a club and a line with the full window.
fn full_question(club: u8, line: u8, claim: Claim) -> Question
    ensures { result ≡ full_question club line claim }
{
    Question {
        club,
        line,
        claim,
        low: -i32::from(MOST_DEDUCTION),
        high: i32::from(MOST_POINTS),
    }
}
