//! Why a cup's sheet could not be read.

ghost use Rattle.std.specs.Prelude.{◌≡◌};
ghost use Rattle.cup_sheet.specs.CupFaults.{cup_code_of};

use fixture_sheet::ReadingStop;
use thiserror::Error;

/// Why a cup's sheet is refused, in the order of the tests. It prints as its code.
#[derive(Clone, Copy, PartialEq, Eq, Debug, Error)]
pub enum CupFault {
    /// The first record is not `cup`, or the input ends before it.
    #[error("no_cup")]
    NoCup,
    /// The input ends before `season`.
    #[error("no_season")]
    NoSeason,
    /// A record that may not stand here, or a CR in its line.
    #[error("unknown_record")]
    UnknownRecord,
    /// A match, a group or the end of the sheet while the group begun last has fewer than three
    /// clubs.
    #[error("too_few_clubs")]
    TooFewClubs,
    /// A record with too few or too many fields.
    #[error("wrong_width")]
    WrongWidth,
    /// A name is no name, a number is no number, or it is out of its range.
    #[error("bad_field")]
    BadField,
    /// There is a club of this name already, in whatever group.
    #[error("club_twice")]
    ClubTwice,
    /// A match names a club that is not in the group.
    #[error("unknown_club")]
    UnknownClub,
    /// A match of a club with itself.
    #[error("self_match")]
    SelfMatch,
    /// A 13th group, or the 7th club or the 61st match of a group.
    #[error("too_many")]
    TooMany,
    /// The end of the sheet before there are two groups.
    #[error("too_few_groups")]
    TooFewGroups,
    /// None of the runners-up would qualify, or all of them.
    #[error("quota_range")]
    QuotaRange,
}

impl CupFault {
    /// The code that the refusal is printed by, as in a row of a run.
    pub fn code(self) -> &'static str
        ensures { result.now ≡ cup_code_of self }
    {
        match self {
            CupFault::NoCup => "no_cup",
            CupFault::NoSeason => "no_season",
            CupFault::UnknownRecord => "unknown_record",
            CupFault::TooFewClubs => "too_few_clubs",
            CupFault::WrongWidth => "wrong_width",
            CupFault::BadField => "bad_field",
            CupFault::ClubTwice => "club_twice",
            CupFault::UnknownClub => "unknown_club",
            CupFault::SelfMatch => "self_match",
            CupFault::TooMany => "too_many",
            CupFault::TooFewGroups => "too_few_groups",
            CupFault::QuotaRange => "quota_range",
        }
    }
}

/// Why a cup is not given.
pub type CupStop = ReadingStop<CupFault>;
