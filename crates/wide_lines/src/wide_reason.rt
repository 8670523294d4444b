//! Reasons that may be near.

use league_core::Reason;

/// Why a question holds nowhere in a zone.
#[derive(Clone, Copy, Debug, PartialEq, Eq)]
pub enum WideReason {
    Plain(Reason),
    /// The near reason by this rival: it would have to end on the club's points, and cannot.
    Near(u8),
}
