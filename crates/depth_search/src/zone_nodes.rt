//! What a search with a season's reasons came to, as a tree of zones.

ghost use Rattle.std.specs.Prelude.{◌≡◌, IfOk, map};
ghost use Rattle.depth_search.specs.inside.ZoneTrees.{new_node};

use crate::kind::CaseNode;
use league_core::{OutOfMemory, Reason, TreeNode};
use std::alloc::Global;

/// The nodes as those of a tree of zones: each split and each refuted leaf is new.
pub fn new_nodes(alloc: Global, nodes: Vec<CaseNode<Reason>>) -> Result<Vec<TreeNode>, OutOfMemory>
    ensures { IfOk result (λ all. all.items ≡ map new_node nodes.items) }
{
    let mut all = Vec::with_capacity(alloc, nodes.len())?;
    for node in nodes {
        all.push(new_node(node))?;
    }
    Ok(all)
}

fn new_node(node: CaseNode<Reason>) -> TreeNode
    ensures { result ≡ new_node node }
{
    match node {
        CaseNode::Split(test) => TreeNode::Split { test, fresh: true },
        CaseNode::Refuted(reason) => TreeNode::Refuted {
            reason,
            fresh: true,
        },
        CaseNode::Open => TreeNode::Open,
    }
}
