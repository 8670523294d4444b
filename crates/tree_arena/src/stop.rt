//! Why a list of nodes gives no tree.

use league_core::TreeNode;

/// Why a list gave no tree.
#[derive(Drop)]
pub enum TreeStop {
    /// No tree has this list of nodes.
    NoTree(Vec<TreeNode>),
    OutOfMemory,
}
