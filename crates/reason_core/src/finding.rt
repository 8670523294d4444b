//! What a solver finds.

use league_core::{Finish, Literal, Lots, Reason};

/// What one piece of work finds, without the piece.
#[derive(Drop)]
pub enum Finding {
    /// A reason that holds in the zone.
    Refuted(Reason),
    /// No reason holds, and the finish that is proposed is no example: a test that splits the zone
    /// in two.
    Split(Literal),
    /// An example.
    Won(Finish, Lots),
}
