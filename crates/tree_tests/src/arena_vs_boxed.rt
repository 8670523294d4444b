//! Trees worked by hand, in both bodies.

use crate::counts::times_lent;
use crate::rows::{split, test_at};
use league_core::TreeNode;
use reference_programs::{BoxedTree, ZoneTree};
use std::alloc::Global;
use std::test::Fail;
use tree_arena::{Tree, TreeStop};

// Whether a tree that is one open leaf lends it under 7, with no literal in its zone.
fn lends_root<T: ZoneTree>(tree: &mut T) -> Result<bool, Fail> {
    if !tree.is_one_open_leaf() {
        return Ok(false);
    }
    match tree.lend(7)? {
        Some(zone) => Ok(zone.literals.is_empty()),
        None => Ok(false),
    }
}

// Splits what is lent under 7, if that is one leaf.
fn splits<T: ZoneTree>(tree: &mut T) -> Result<bool, Fail> {
    if times_lent(tree, 7)? != 1 {
        return Ok(false);
    }
    tree.split(7, test_at(0));
    Ok(true)
}

// Whether the tree is a new split with two open leaves.
fn is_split<T: ZoneTree>(tree: &T) -> Result<bool, Fail> {
    let test = test_at(0);
    let wanted = [
        TreeNode::Split { test, fresh: true },
        TreeNode::Open,
        TreeNode::Open,
    ];
    Ok(tree.nodes()?.as_slice() == wanted.as_slice())
}

fn lends_and_splits<T: ZoneTree>(tree: &mut T) -> Result<bool, Fail> {
    Ok(lends_root(tree)? && splits(tree)? && is_split(tree)?)
}

// The root is lent under 7 and split: its zone has no literal, and both leaves are open.
fn is_split_root<T: ZoneTree + Drop>(alloc: Global) -> Result<bool, Fail> {
    let mut tree = T::root(alloc)?;
    lends_and_splits(&mut tree)
}

#[test]
fn both_bodies_split_a_root(rt: HostRuntime) -> Result<(), Fail> {
    assert!(rt; is_split_root::<Tree>(rt.alloc())?);
    assert!(rt; is_split_root::<BoxedTree>(rt.alloc())?);
    Ok(())
}

fn has_two_leaves<T: ZoneTree>(tree: &T) -> Result<bool, Fail> {
    Ok(tree.leaves()?.len() == 2 && tree.has_open())
}

// A split with two leaves goes through.
fn two_leaves_are_a_tree<T: ZoneTree + Drop>(alloc: Global) -> Result<bool, Fail> {
    let two = vec![in alloc; split(0), TreeNode::Lent(3), TreeNode::Open]?;
    has_leaves(&T::of_nodes(alloc, two))
}

fn has_leaves<T: ZoneTree>(made: &Result<T, TreeStop>) -> Result<bool, Fail> {
    match made {
        Ok(tree) => has_two_leaves(tree),
        Err(_) => Ok(false),
    }
}

// A split with one leaf comes back.
fn one_leaf_comes_back<T: ZoneTree + Drop>(alloc: Global) -> Result<bool, Fail> {
    let one = vec![in alloc; split(0), TreeNode::Open]?;
    Ok(gives_two_back(&T::of_nodes(alloc, one)))
}

fn gives_two_back<T: ZoneTree>(made: &Result<T, TreeStop>) -> bool {
    match made {
        Err(TreeStop::NoTree(back)) => back.len() == 2,
        Ok(_) | Err(TreeStop::OutOfMemory) => false,
    }
}

fn tells_trees<T: ZoneTree + Drop>(alloc: Global) -> Result<bool, Fail> {
    Ok(two_leaves_are_a_tree::<T>(alloc)? && one_leaf_comes_back::<T>(alloc)?)
}

#[test]
fn both_bodies_tell_a_list_that_is_no_tree(rt: HostRuntime) -> Result<(), Fail> {
    assert!(rt; tells_trees::<Tree>(rt.alloc())?);
    assert!(rt; tells_trees::<BoxedTree>(rt.alloc())?);
    Ok(())
}
