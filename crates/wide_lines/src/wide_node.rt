//! Trees of zones with wide reasons, as lists of nodes.

ghost use Rattle.std.specs.Prelude.{◌≡◌};
ghost use Rattle.wide_lines.specs.WideTrees as trees;

use crate::wide_reason::WideReason;
use league_core::{Test, TreeNode};

/// A node of a wide tree. A tree is listed from its root on, the half where a test is true first.
#[derive(Clone, Copy, Debug, PartialEq, Eq)]
pub enum WideNode {
    /// The zone is split by a test. A node that is `fresh` counts as a unit of the budget.
    Split { test: Test, fresh: bool },
    /// A leaf that was not worked on.
    Open,
    /// A leaf in which the question does not hold.
    Refuted { reason: WideReason, fresh: bool },
}

/// A node of a tree without near leaves as one of a wide tree.
pub fn widened(node: TreeNode) -> WideNode
    ensures { result ≡ trees.wide_node node }
{
    match node {
        TreeNode::Split { test, fresh } => WideNode::Split { test, fresh },
        TreeNode::Open | TreeNode::Lent(_) => WideNode::Open,
        TreeNode::Refuted { reason, fresh } => WideNode::Refuted {
            reason: WideReason::Plain(reason),
            fresh,
        },
    }
}
