//! The list of an arena's tree, from its first node on.

ghost use Rattle.std.specs.Prelude.{◌≡◌, ◌<◌, ◌≤◌, length, reverse, IfOk};
ghost use Rattle.league_core.specs.search.Trees.{preorder};
ghost use Rattle.tree_arena.specs.declared.node.Node.{Node};
ghost use Rattle.tree_arena.specs.inside.Arena.{AllWithin, tree_below, listed_kind, stack_after};
ghost use Rattle.tree_arena.specs.inside.Arena.{HasRoomFor};
ghost use Rattle.tree_arena.specs.inside.Steps.{from_next};

use crate::node::{Kind, MOST_NUMBERS, Node};
use league_core::{OutOfMemory, TreeNode};
use std::alloc::Global;

/// The nodes of the tree, the yes half of a split before its no half.
pub fn list_nodes(alloc: Global, nodes: &[Node]) -> Result<Vec<TreeNode>, OutOfMemory>
    requires some { 0 < length nodes.now }
    requires few { length nodes.now ≤ MOST_NUMBERS }
    requires within { AllWithin nodes.now }
    ensures { IfOk result (λ found. found.items ≡ preorder (tree_below nodes.now 0)) }
{
    let mut found = Vec::with_capacity(alloc, nodes.len())?;
    let mut stack = Vec::new(alloc);
    let mut next = Some(0);
    while let Some(at) = next {
        let kind = nodes[at as usize].kind;
        found.push(listed(kind))?;
        next = next_node(kind, at, &mut stack)?;
    }
    Ok(found)
}

/// The node as the list has it.
pub fn listed(kind: Kind) -> TreeNode
    ensures { result ≡ listed_kind kind }
{
    match kind {
        Kind::Open => TreeNode::Open,
        Kind::Lent(number) => TreeNode::Lent(number),
        Kind::Refuted(reason, fresh) => TreeNode::Refuted { reason, fresh },
        Kind::Split(test, fresh, _) => TreeNode::Split { test, fresh },
    }
}

// The node that comes next: after a split its yes half, and its no half waits on the stack; after a
// leaf the one that waits on top.
fn next_node(kind: Kind, at: u32, stack: &mut Vec<u32>) -> Result<Option<u32>, OutOfMemory>
    requires { HasRoomFor kind at }
    ensures { IfOk result (λ next. from_next next (reverse stack.new.items)
        ≡ stack_after kind at (reverse stack.old.items)) }
{
    if let Kind::Split(_, _, half) = kind {
        let first = at + half + 1;
        stack.push(first + 1)?;
        return Ok(Some(first));
    }
    Ok(stack.pop())
}
