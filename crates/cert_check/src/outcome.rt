//! What an input comes to in which a report is checked.

ghost use Rattle.std.specs.Prelude.{◌≡◌};
ghost use Rattle.cert_check.specs.Outcomes.{report_code_of};

use fixture_sheet::SheetFault;
use league_core::OutOfMemory;
use result_log::FeedFault;

/// Why a report is no proof.
#[derive(Clone, Copy, Debug, PartialEq, Eq)]
pub enum ReportFault {
    /// The line may not come there.
    BadLine,
    /// The line fits, and does not prove what it says.
    NoProof,
    /// The input ended before the report was whole, or before the record `proofs`.
    Short,
}

impl ReportFault {
    /// The code that it is printed by.
    pub fn code(self) -> &'static str
        ensures { result.now ≡ report_code_of self }
    {
        match self {
            ReportFault::BadLine => "bad_line",
            ReportFault::NoProof => "no_proof",
            ReportFault::Short => "short",
        }
    }
}

/// What an input comes to.
#[derive(Clone, Copy, Debug, PartialEq, Eq)]
pub enum CheckOutcome {
    /// Each verdict of the report follows, but for those that are unsettled: how many rows of
    /// verdicts it has, and how many of them are unsettled.
    Accepted { rows: u64, unsettled: u64 },
    /// The first line at which the report is no proof; if it is short, the number after the last
    /// line's.
    Refused { number: u64, fault: ReportFault },
    /// The line of this number is not one of a sheet; or the input ended, at the number after the
    /// last line's.
    BadSheet { number: u64, fault: SheetFault },
    /// The line of this number is not one of a feed.
    BadFeed { number: u64, fault: FeedFault },
    /// The line of this number has more bytes than a line may have.
    LineTooLong { number: u64 },
    /// The input has more bytes than an input may have, and the first one too many stands in the
    /// line of this number.
    InputTooLong { number: u64 },
}

/// Why an input has no outcome.
#[derive(Clone, Copy, Debug, PartialEq, Eq)]
pub enum CheckFailure {
    /// The source failed.
    ReadFault,
    OutOfMemory,
}

impl From<OutOfMemory> for CheckFailure {
    ghost use Rattle.cert_check.specs.declared.outcome.CheckFailure.TheVariants.{OutOfMemory};

    ghost from_gives = { λ _ failure. failure ≡ OutOfMemory };

    fn from(_: OutOfMemory) -> CheckFailure {
        CheckFailure::OutOfMemory
    }
}
