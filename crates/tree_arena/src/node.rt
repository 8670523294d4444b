//! Nodes of the arena.

use league_core::{Reason, Test};

/// The most nodes of a tree, with two more for each lent leaf.
pub const MOST_NUMBERS: u32 = 4_100_000_000;

/// What stands in a node. The halves of a split come after it one after the other, the first of
/// them so many places after the next node.
#[derive(Clone, Copy)]
pub enum Kind {
    Open,
    Lent(u64),
    Refuted(Reason, bool),
    Split(Test, bool, u32),
}

/// A node, the number of its parent, and whether it is the half where the parent's test is true.
#[derive(Clone, Copy)]
pub struct Node {
    pub kind: Kind,
    pub parent: u32,
    pub yes: bool,
}
