//! What a feed tells, entry by entry.

use league_core::Event;

/// One entry of a feed.
#[derive(Clone, Copy, PartialEq, Eq, Debug)]
pub enum Entry {
    /// A result, a correction, an annulment or a deduction.
    Change(Event),
    /// An answer is asked for now.
    Ask,
    /// The feed ends here, and proofs follow.
    Proofs,
    /// The feed ends with the input.
    End,
}
