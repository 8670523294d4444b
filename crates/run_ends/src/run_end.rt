//! How a session ends, by its input.

use cup_sheet::CupFault;
use fixture_sheet::SheetFault;
use result_log::FeedFault;

/// Why a line is refused.
#[derive(Clone, Copy, Debug, PartialEq, Eq)]
pub enum Cause {
    /// The line, or the end of the input, is none of a sheet here.
    Sheet(SheetFault),
    /// The line, or the end of the input, is none of a cup's sheet here.
    Cup(CupFault),
    /// The line is none of a feed here.
    Feed(FeedFault),
    /// The line has more bytes than a line may have.
    LineTooLong,
    /// The input has more bytes than an input may have, and the first one too many stands in the
    /// line.
    InputTooLong,
    /// No saved text has the line there, or the input ends before it is whole.
    BadSave,
}

/// A refused line, by its number from 1, or the end of the input, by the number after the last
/// line's.
#[derive(Clone, Copy, Debug, PartialEq, Eq)]
pub struct Fault {
    pub number: u64,
    pub cause: Cause,
}

/// How a session ends, by its input.
#[derive(Clone, Copy, Debug, PartialEq, Eq)]
pub enum RunEnd {
    /// The input is read to its end.
    Complete,
    /// A line of it, or its end, is refused.
    Refused(Fault),
}
