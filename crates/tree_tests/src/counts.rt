//! How often a number is lent in a tree, and whether a tree has room for more nodes.

ghost use Rattle.std.specs.Prelude.{◌≡◌, ◌+◌, ◌≤◌, IfOk, IsTrue, count_by};
ghost use Rattle.league_core.specs.search.Trees.{node_count};
ghost use Rattle.league_core.specs.inside.Lending.{times_lent, lent_count};
ghost use Rattle.tree_tests.specs.inside.LentNodes.{is_lent_node};

use league_core::{OutOfMemory, TreeNode, Zone};
use reference_programs::ZoneTree;
use std::test::Fail;
use tree_arena::{MOST_NODES, Tree};

fn is_lent(node: &TreeNode, number: u64) -> bool
    ensures { result ≡ is_lent_node number node.now }
{
    match node {
        TreeNode::Lent(other) => *other == number,
        TreeNode::Open | TreeNode::Refuted { .. } | TreeNode::Split { .. } => false,
    }
}

fn count(nodes: &[TreeNode], number: u64) -> usize
    ensures { result ≡ count_by (is_lent_node number) nodes.now }
{
    nodes.iter().filter(|node| is_lent(node, number)).count()
}

/// How often the number is lent in the tree.
#[tactic(auto, using(crate::proofs::LentNodeLemmas::counted))]
pub fn times_lent<T: ZoneTree>(tree: &T, number: u64) -> Result<usize, OutOfMemory>
    ensures { IfOk result (λ times. times ≡ times_lent number (T.seen tree.now)) }
{
    let nodes = tree.nodes()?;
    Ok(count(nodes.as_slice(), number))
}

/// Whether a leaf may be lent, whatever the tree.
#[tactic(auto, using(crate::proofs::LentNodeLemmas::lent_are_nodes))]
pub fn may_lend(tree: &Tree) -> bool
    ensures { IsTrue result → node_count tree.now + lent_count tree.now ≤ MOST_NODES }
{
    tree.node_count() < 1_000_000
}

/// Lends a leaf under a number that is not lent, and returns its zone.
pub fn lend_next(tree: &mut Tree, number: u64) -> Result<Option<Zone>, Fail> {
    if !may_lend(tree) || times_lent(tree, number)? != 0 {
        return Err("the number is lent, or the tree is full".into());
    }
    Ok(tree.lend(number)?)
}
