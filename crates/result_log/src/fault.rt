//! Why a record of the feed is refused, and why no entry is given.

ghost use Rattle.std.specs.Prelude.{◌≡◌};
ghost use Rattle.result_log.specs.Faults.{feed_code_of};

use port_core::ReadStop;
use thiserror::Error;

/// Why a record of the feed is refused. It prints as its code. The order of the tests is that of
/// `specs/Records.antt`.
#[derive(Clone, Copy, PartialEq, Eq, Debug, Error)]
pub enum FeedFault {
    /// A record that a feed does not have, or a CR in its line.
    #[error("unknown_record")]
    UnknownRecord,
    /// A record with too few or too many fields.
    #[error("wrong_width")]
    WrongWidth,
    /// The sheet has no fixture of this number.
    #[error("unknown_fixture")]
    UnknownFixture,
    /// A side's goals are no number from 0 to 99.
    #[error("bad_goals")]
    BadGoals,
    /// A result of a fixture that has a score.
    #[error("already_played")]
    AlreadyPlayed,
    /// A correction or an annulment of a fixture that has no score.
    #[error("not_played")]
    NotPlayed,
    /// There were 100,000 events before this one.
    #[error("log_full")]
    LogFull,
    /// A deduction of a club that the sheet does not have.
    #[error("unknown_club")]
    UnknownClub,
    /// The points taken off are no number from 0 to 99.
    #[error("bad_points")]
    BadPoints,
}

impl FeedFault {
    /// The code that the refusal is printed by, as in a row of a run.
    pub fn code(self) -> &'static str
        ensures { result.now ≡ feed_code_of self }
    {
        match self {
            FeedFault::UnknownRecord => "unknown_record",
            FeedFault::WrongWidth => "wrong_width",
            FeedFault::UnknownFixture => "unknown_fixture",
            FeedFault::BadGoals => "bad_goals",
            FeedFault::AlreadyPlayed => "already_played",
            FeedFault::NotPlayed => "not_played",
            FeedFault::LogFull => "log_full",
            FeedFault::UnknownClub => "unknown_club",
            FeedFault::BadPoints => "bad_points",
        }
    }
}

/// Why a content is not read.
#[derive(Clone, Copy, PartialEq, Eq, Debug)]
pub enum ContentStop {
    Fault(FeedFault),
    OutOfMemory,
}

/// Why no entry is given.
#[derive(Clone, Copy, PartialEq, Eq, Debug)]
pub enum FeedStop {
    /// The line of this number is refused.
    Fault { number: u64, fault: FeedFault },
    /// The input stopped, in place of any test on that line.
    Read(ReadStop),
    OutOfMemory,
}
