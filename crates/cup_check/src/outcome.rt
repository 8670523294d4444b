//! What an input comes to in which a report on a cup is checked.

use cert_check::CheckOutcome;
use cup_sheet::CupFault;

/// What an input comes to.
#[derive(Clone, Copy, Debug, PartialEq, Eq)]
pub enum CupOutcome {
    /// The line of this number is not one of the sheet of a cup; or the input ended, at the number
    /// after the last line's.
    BadCup { number: u64, fault: CupFault },
    /// What the feed and the report come to, or an input that stops; never a league's `BadSheet`.
    Judged(CheckOutcome),
}
