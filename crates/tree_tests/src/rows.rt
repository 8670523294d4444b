//! Trees worked by hand, and trees whose splits stand one below the other.

ghost use Rattle.std.specs.Prelude.{◌≡◌, ◌≤◌, IfOk, length};

use crate::counts::{lend_next, times_lent};
use league_core::{Literal, OutOfMemory, Test, TreeNode, Zone};
use reference_programs::ZoneTree;
use std::alloc::Global;
use std::test::Fail;
use tree_arena::{MOST_NODES, Tree, TreeStop};

/// A test of a match of its own.
pub fn test_at(fixture: u16) -> Test {
    Test::HomeMost { fixture, most: 0 }
}

pub fn split(fixture: u16) -> TreeNode {
    TreeNode::Split {
        test: test_at(fixture),
        fresh: false,
    }
}

// So many splits, each in the no half of the one before.
fn chain_of_no(alloc: Global, splits: u16) -> Result<Vec<TreeNode>, OutOfMemory> {
    let mut nodes = Vec::new(alloc);
    for fixture in 0..splits {
        nodes.push(split(fixture))?;
        nodes.push(TreeNode::Open)?;
    }
    nodes.push(TreeNode::Open)?;
    Ok(nodes)
}

// So many splits, each in the yes half of the one before.
fn chain_of_yes(alloc: Global, splits: u16) -> Result<Vec<TreeNode>, OutOfMemory> {
    let mut nodes = Vec::new(alloc);
    for fixture in 0..splits {
        nodes.push(split(fixture))?;
    }
    for number in 0..splits {
        nodes.push(TreeNode::Lent(u64::from(number)))?;
    }
    nodes.push(TreeNode::Open)?;
    Ok(nodes)
}

fn tree_of<T: ZoneTree>(nodes: Vec<TreeNode>) -> Result<T, TreeStop> {
    if nodes.len() > 1_000_000 {
        return Err(TreeStop::NoTree(nodes));
    }
    T::of_nodes(*nodes.allocator(), nodes)
}

// Whether the tree gives this list.
fn gives(tree: &Tree, nodes: &[TreeNode]) -> Result<bool, Fail> {
    Ok(tree.nodes()?.as_slice() == nodes)
}

// Whether the list is that of a tree, which gives the same list back.
fn goes_through(alloc: Global, nodes: &[TreeNode]) -> Result<bool, Fail> {
    let made = tree_of(Vec::from_slice(alloc, nodes)?);
    is_through(&made, nodes)
}

fn is_through(made: &Result<Tree, TreeStop>, nodes: &[TreeNode]) -> Result<bool, Fail> {
    match made {
        Ok(tree) => gives(tree, nodes),
        Err(_) => Ok(false),
    }
}

// Whether the list is refused, and comes back.
fn comes_back(alloc: Global, nodes: &[TreeNode]) -> Result<bool, Fail> {
    let made = tree_of(Vec::from_slice(alloc, nodes)?);
    Ok(is_back(&made, nodes))
}

fn is_back(made: &Result<Tree, TreeStop>, nodes: &[TreeNode]) -> bool {
    match made {
        Err(TreeStop::NoTree(back)) => back.as_slice() == nodes,
        Ok(_) | Err(TreeStop::OutOfMemory) => false,
    }
}

// How many nodes a chain in the no halves has, and whether it goes through.
fn chain_of_no_goes_through(alloc: Global) -> Result<(usize, bool), Fail> {
    let nodes = chain_of_no(alloc, 50_000)?;
    Ok((nodes.len(), goes_through(alloc, nodes.as_slice())?))
}

// The same of one in the yes halves.
fn chain_of_yes_goes_through(alloc: Global) -> Result<(usize, bool), Fail> {
    let nodes = chain_of_yes(alloc, 50_000)?;
    Ok((nodes.len(), goes_through(alloc, nodes.as_slice())?))
}

#[test]
fn chains_of_100_001_nodes_go_through(rt: HostRuntime) -> Result<(), Fail> {
    assert_eq!(rt; chain_of_no_goes_through(rt.alloc())?, (100_001, true));
    assert_eq!(rt; chain_of_yes_goes_through(rt.alloc())?, (100_001, true));
    Ok(())
}

// How many nodes a list has that has one leaf more than its splits have room for, and whether it
// comes back.
fn longer_chain_comes_back(alloc: Global) -> Result<(usize, bool), Fail> {
    let mut nodes = chain_of_no(alloc, 50_000)?;
    nodes.push(TreeNode::Open)?;
    Ok((nodes.len(), comes_back(alloc, nodes.as_slice())?))
}

#[test]
fn a_list_of_100_002_nodes_is_refused(rt: HostRuntime) -> Result<(), Fail> {
    assert_eq!(rt; longer_chain_comes_back(rt.alloc())?, (100_002, true));
    Ok(())
}

#[test]
fn a_split_with_one_half_is_no_tree(rt: HostRuntime) -> Result<(), Fail> {
    assert!(rt; comes_back(rt.alloc(), &[split(0), TreeNode::Open])?);
    assert!(rt; comes_back(rt.alloc(), &[])?);
    Ok(())
}

// Whether the zone goes to the no half of each split before the last, and there as told.
fn is_way_down(zone: &Zone, splits: usize, yes_at_last: bool) -> bool {
    let way = zone.literals.as_slice();
    if way.len() != splits {
        return false;
    }
    for place in 0..way.len() {
        let yes = yes_at_last && place + 1 == way.len();
        let test = test_at(place.min(9999) as u16);
        if way[place] != (Literal { test, yes }) {
            return false;
        }
    }
    true
}

fn are_leaves_of_chain(leaves: &[Zone], splits: usize) -> bool {
    for place in 0..leaves.len() {
        let is_leaf = if place < splits {
            is_way_down(&leaves[place], place + 1, true)
        } else {
            is_way_down(&leaves[place], splits, false)
        };
        if !is_leaf {
            return false;
        }
    }
    true
}

/// The tree of a list that is one.
pub fn tree_or_fail<T: ZoneTree>(nodes: Vec<TreeNode>) -> Result<T, Fail> {
    match tree_of(nodes) {
        Ok(tree) => Ok(tree),
        Err(_) => Err("no tree".into()),
    }
}

// How many leaves the tree has, and whether they are those of a chain of so many splits.
fn leaves_seen(tree: &Tree, splits: usize) -> Result<(usize, bool), Fail> {
    let leaves = tree.leaves()?;
    Ok((leaves.len(), are_leaves_of_chain(leaves.as_slice(), splits)))
}

fn leaves_of_list(nodes: Vec<TreeNode>, splits: usize) -> Result<(usize, bool), Fail> {
    let tree: Tree = tree_or_fail(nodes)?;
    leaves_seen(&tree, splits)
}

// How many nodes a chain of 1,000 splits has, and what its leaves are.
fn long_chain(alloc: Global) -> Result<(usize, (usize, bool)), Fail> {
    let nodes = chain_of_no(alloc, 1000)?;
    Ok((nodes.len(), leaves_of_list(nodes, 1000)?))
}

#[test]
fn a_chain_of_2_001_nodes_has_its_leaves(rt: HostRuntime) -> Result<(), Fail> {
    assert_eq!(rt; long_chain(rt.alloc())?, (2001, (1001, true)));
    Ok(())
}

// How many literals the zone has that is lent under the number; none if nothing is open.
fn lent_depth(tree: &mut Tree, number: u64) -> Result<Option<usize>, Fail> {
    Ok(lend_next(tree, number)?.map(|zone| zone.literals.len()))
}

fn split_lent(tree: &mut Tree, number: u64) -> Result<(), Fail> {
    if times_lent(tree, number)? != 1 {
        return Err("not lent".into());
    }
    tree.split(number, test_at(0));
    Ok(())
}

// What is lent before and after the split of a root, and how many leaves that leaves.
type Lent = ([Option<usize>; 2], usize, [Option<usize>; 3]);

fn lend_and_split(tree: &mut Tree) -> Result<Lent, Fail> {
    let before = [lent_depth(tree, 7)?, lent_depth(tree, 8)?];
    split_lent(tree, 7)?;
    let count = tree.leaves()?.len();
    let after = [
        lent_depth(tree, 7)?,
        lent_depth(tree, 8)?,
        lent_depth(tree, 9)?,
    ];
    Ok((before, count, after))
}

fn lend_and_split_root(alloc: Global) -> Result<Lent, Fail> {
    let mut tree = Tree::root(alloc)?;
    lend_and_split(&mut tree)
}

#[test]
fn one_leaf_is_lent_once_and_split(rt: HostRuntime) -> Result<(), Fail> {
    let (before, count, after) = lend_and_split_root(rt.alloc())?;
    assert_eq!(rt; before, [Some(0), None]);
    assert_eq!(rt; count, 2);
    assert_eq!(rt; after, [Some(1), Some(1), None]);
    Ok(())
}
