//! The lines of proofs whose leaves may have near reasons.

use cert_text::ProofLine;

/// One line of a wide proof.
#[derive(Drop)]
pub enum WideLine {
    Plain(ProofLine),
    /// A leaf in which the question does not hold, by the near reason of this rival.
    Near(u8),
    /// Such a leaf that counts as a unit of the budget.
    NewNear(u8),
}
