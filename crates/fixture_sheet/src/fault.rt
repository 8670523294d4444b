//! Why a line, a record or a sheet could not be read.

ghost use Rattle.std.specs.Prelude.{◌≡◌};
ghost use Rattle.fixture_sheet.specs.Faults.{sheet_code_of};

use league_core::OutOfMemory;
use port_core::ReadStop;
use thiserror::Error;

/// Why a sheet is refused. It prints as its code.
#[derive(Clone, Copy, PartialEq, Eq, Debug, Error)]
pub enum SheetFault {
    /// The first record is not `league`, or the input ends before it.
    #[error("no_league")]
    NoLeague,
    /// A name is no name, a number is no number, or it is out of its range.
    #[error("bad_field")]
    BadField,
    /// There is a club of this name already.
    #[error("club_twice")]
    ClubTwice,
    /// A match names a club that is not there.
    #[error("unknown_club")]
    UnknownClub,
    /// A match of a club with itself.
    #[error("self_match")]
    SelfMatch,
    /// A line that does not leave a club on each of its sides.
    #[error("line_range")]
    LineRange,
    /// A 25th club, a 601st match, or a 5th line.
    #[error("too_many")]
    TooMany,
    /// A match, a line or the end of the sheet before there are two clubs.
    #[error("too_few_clubs")]
    TooFewClubs,
    /// A record that may not stand here, or a CR in its line.
    #[error("unknown_record")]
    UnknownRecord,
    /// A record with too few or too many fields.
    #[error("wrong_width")]
    WrongWidth,
    /// There is this line already.
    #[error("line_twice")]
    LineTwice,
    /// The input ends before `season`.
    #[error("no_season")]
    NoSeason,
}

impl SheetFault {
    /// The code that the refusal is printed by, as in a row of a run.
    pub fn code(self) -> &'static str
        ensures { result.now ≡ sheet_code_of self }
    {
        match self {
            SheetFault::NoLeague => "no_league",
            SheetFault::BadField => "bad_field",
            SheetFault::ClubTwice => "club_twice",
            SheetFault::UnknownClub => "unknown_club",
            SheetFault::SelfMatch => "self_match",
            SheetFault::LineRange => "line_range",
            SheetFault::TooMany => "too_many",
            SheetFault::TooFewClubs => "too_few_clubs",
            SheetFault::UnknownRecord => "unknown_record",
            SheetFault::WrongWidth => "wrong_width",
            SheetFault::LineTwice => "line_twice",
            SheetFault::NoSeason => "no_season",
        }
    }
}

/// Why a line has no fields.
#[derive(Clone, Copy, PartialEq, Eq, Debug)]
pub enum FieldsStop {
    /// There is a CR in the text.
    InnerReturn,
    OutOfMemory,
}

impl From<OutOfMemory> for FieldsStop {
    ghost use Rattle.fixture_sheet.specs.declared.fault.FieldsStop.TheVariants.{OutOfMemory};

    ghost from_gives = { λ _ stop. stop ≡ OutOfMemory };

    fn from(_cause: OutOfMemory) -> FieldsStop {
        FieldsStop::OutOfMemory
    }
}

/// Why a record is not taken.
#[derive(Clone, Copy, PartialEq, Eq, Debug)]
pub enum RecordStop<F> {
    Fault(F),
    OutOfMemory,
}

impl<F> From<OutOfMemory> for RecordStop<F> {
    ghost use Rattle.fixture_sheet.specs.declared.fault.RecordStop.TheVariants.{OutOfMemory};

    ghost from_gives = { λ _ stop. stop ≡ OutOfMemory };

    fn from(_cause: OutOfMemory) -> RecordStop<F> {
        RecordStop::OutOfMemory
    }
}

/// Why a league's sheet is not given.
pub type SheetStop = ReadingStop<SheetFault>;

/// Why a sheet, of whatever kind, is not given.
#[derive(Clone, Copy, PartialEq, Eq, Debug)]
pub enum ReadingStop<F> {
    /// The line of this number is refused; at the end of the input it is one more than the last.
    Fault { number: u64, fault: F },
    /// The input stopped, in place of any test on that line.
    Read(ReadStop),
    OutOfMemory,
}
