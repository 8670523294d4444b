//! Trees of zones as lists of nodes.

use crate::zone::{Reason, Test};

/// A node of a tree of zones. A tree is listed from its root on, the half where a test is true
/// first.
#[derive(Clone, Copy, Debug, PartialEq, Eq)]
pub enum TreeNode {
    /// The zone is split by a test. A node that is `fresh` is of the present epoch.
    Split { test: Test, fresh: bool },
    /// A leaf that waits for work.
    Open,
    /// A leaf that is worked on under a number.
    Lent(u64),
    /// A leaf in which the question does not hold.
    Refuted { reason: Reason, fresh: bool },
}
