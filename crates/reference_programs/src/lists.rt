//! A tree as the list of its nodes, and as the zones of its leaves.

ghost use Rattle.std.specs.Prelude.{◌≡◌, ◌≤◌, ◌++◌, length, IfOk, IfErr};
ghost use Rattle.league_core.specs.search.Trees.{preorder, zones_from, zones_of};
ghost use Rattle.tree_arena.specs.inside.Calls.{literals_of, most_nodes};
ghost use Rattle.tree_arena.specs.inside.Stops.{WhyNoTree};
ghost use Rattle.reference_programs.specs.inside.Boxed.{JoinsNode};

use crate::boxed::{BoxedTree, Node};
use league_core::{Listing, Literal, OutOfMemory, TreeNode, Zone};
use std::alloc::Global;
use tree_arena::TreeStop;

impl BoxedTree {
    /// The nodes from the root on, the half where a test is true first.
    pub fn nodes(&self) -> Result<Vec<TreeNode>, OutOfMemory>
        ensures { IfOk result (λ nodes. nodes.items ≡ preorder self.now) }
    {
        let mut found = Vec::new(self.alloc);
        self.push_nodes(&mut found)?;
        Ok(found)
    }

    fn push_nodes(&self, found: &mut Vec<TreeNode>) -> Result<(), OutOfMemory>
        ensures { IfOk result (λ _. found.new.items ≡ found.old.items ++ preorder self.now) }
    {
        match &self.node {
            Node::Open => found.push(TreeNode::Open)?,
            Node::Lent(number, _, _) => found.push(TreeNode::Lent(*number))?,
            Node::Refuted(reason, fresh) => found.push(TreeNode::Refuted {
                reason: *reason,
                fresh: *fresh,
            })?,
            Node::Split(test, fresh, yes_half, no_half) => {
                found.push(TreeNode::Split {
                    test: *test,
                    fresh: *fresh,
                })?;
                yes_half.push_nodes(found)?;
                no_half.push_nodes(found)?;
            }
        }
        Ok(())
    }

    /// The tree whose nodes are this list; `NoTree` hands the list back exactly when no tree has
    /// it.
    pub fn of_nodes(alloc: Global, nodes: Vec<TreeNode>) -> Result<BoxedTree, TreeStop>
        requires few { length nodes.items ≤ most_nodes }
        ensures ok { IfOk result (λ tree. preorder tree ≡ nodes.items) }
        ensures err { IfErr result (WhyNoTree nodes.items) }
    {
        let mut trees = Vec::new(alloc);
        let mut at = nodes.len();
        while at > 0 {
            at -= 1;
            match join_node(alloc, &mut trees, nodes[at]) {
                Ok(true) => {}
                Ok(false) => return Err(TreeStop::NoTree(nodes)),
                Err(_) => return Err(TreeStop::OutOfMemory),
            }
        }
        let Some(tree) = trees.pop() else {
            return Err(TreeStop::NoTree(nodes));
        };
        if trees.is_empty() {
            Ok(tree)
        } else {
            Err(TreeStop::NoTree(nodes))
        }
    }

    /// The zones of all leaves, the half where a test is true first.
    pub fn leaves(&self) -> Result<Vec<Zone>, OutOfMemory>
        ensures { IfOk result (λ zones. literals_of zones.items ≡ zones_of self.now) }
    {
        let mut found = Vec::new(self.alloc);
        let mut zone = Vec::new(self.alloc);
        self.push_leaves(&mut zone, &mut found)?;
        Ok(found)
    }

    fn push_leaves(&self, zone: &mut Vec<Literal>, found: &mut Vec<Zone>) -> Result<(), OutOfMemory>
        ensures zone { IfOk result (λ _. zone.new.items ≡ zone.old.items) }
        ensures found { IfOk result (λ _. literals_of found.new.items
            ≡ literals_of found.old.items ++ zones_from zone.old.items self.now) }
    {
        match &self.node {
            Node::Open | Node::Lent(..) | Node::Refuted(..) => {
                let literals = Listing::from_vec(Vec::from_slice(self.alloc, zone.as_slice())?);
                found.push(Zone { literals })?;
            }
            Node::Split(test, _, yes_half, no_half) => {
                let test = *test;
                zone.push(Literal { test, yes: true })?;
                yes_half.push_leaves(zone, found)?;
                zone.pop();
                zone.push(Literal { test, yes: false })?;
                no_half.push_leaves(zone, found)?;
                zone.pop();
            }
        }
        Ok(())
    }
}

// Puts the tree that begins with a node on top of those after it; false if a split has fewer than
// two after it.
fn join_node(alloc: Global, trees: &mut Vec<BoxedTree>, node: TreeNode) -> Result<bool, OutOfMemory>
    ensures { IfOk result (JoinsNode trees.old.items node trees.new.items) }
{
    let node = match node {
        TreeNode::Open => Node::Open,
        TreeNode::Refuted { reason, fresh } => Node::Refuted(reason, fresh),
        TreeNode::Lent(number) => {
            let yes_half = Box::new(alloc, BoxedTree::leaf(alloc))?;
            let no_half = Box::new(alloc, BoxedTree::leaf(alloc))?;
            Node::Lent(number, yes_half, no_half)
        }
        TreeNode::Split { test, fresh } => {
            let (Some(yes_half), Some(no_half)) = (trees.pop(), trees.pop()) else {
                return Ok(false);
            };
            let first = Box::new(alloc, yes_half)?;
            let second = Box::new(alloc, no_half)?;
            Node::Split(test, fresh, first, second)
        }
    };
    trees.push(BoxedTree { alloc, node })?;
    Ok(true)
}
