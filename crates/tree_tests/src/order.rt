//! Which leaf is lent first when several are open.

use crate::carried::carried_over_12_0;
use crate::counts::lend_next;
use crate::rows::tree_or_fail;
use league_core::{Literal, OutOfMemory, Test, TreeNode};
use std::alloc::Global;
use std::test::Fail;
use tree_arena::Tree;

// At most so many goals of the home club in the second match.
fn at_most(most: u8) -> Test {
    Test::HomeMost { fixture: 1, most }
}

fn split(most: u8) -> TreeNode {
    TreeNode::Split {
        test: at_most(most),
        fresh: true,
    }
}

// At most three goals or more, and both halves split once more; the first leaf is lent.
fn four_leaves(alloc: Global) -> Result<Vec<TreeNode>, OutOfMemory> {
    Ok(vec![in alloc;
        split(3),
        split(1),
        TreeNode::Lent(7),
        TreeNode::Open,
        split(4),
        TreeNode::Open,
        TreeNode::Open,
    ]?)
}

// At most three goals or not, and then at most so many or not.
fn zone(yes: bool, most: u8, yes_then: bool) -> [Literal; 2] {
    let test = at_most(most);
    [
        Literal {
            test: at_most(3),
            yes,
        },
        Literal {
            test,
            yes: yes_then,
        },
    ]
}

// The zones of the leaves but the first, as the list has them.
fn zones_after() -> [[Literal; 2]; 3] {
    [
        zone(true, 1, false),
        zone(false, 4, true),
        zone(false, 4, false),
    ]
}

// Whether the next leaf that the tree lends has this zone.
fn lends(tree: &mut Tree, number: u64, wanted: &[Literal]) -> Result<bool, Fail> {
    match lend_next(tree, number)? {
        Some(zone) => Ok(zone.literals.as_slice() == wanted),
        None => Ok(false),
    }
}

// Whether the tree lends leaves of these zones one after the other, and no more.
fn lends_in_turn(tree: &mut Tree, zones: &[[Literal; 2]]) -> Result<bool, Fail> {
    let mut number = 20u64;
    for zone in zones {
        if !lends(tree, number, zone.as_slice())? {
            return Ok(false);
        }
        number = number.wrapping_add(1);
    }
    Ok(lend_next(tree, number)?.is_none())
}

fn listed_lends_in_turn(alloc: Global) -> Result<bool, Fail> {
    let mut tree = tree_or_fail(four_leaves(alloc)?)?;
    lends_in_turn(&mut tree, zones_after().as_slice())
}

#[test]
fn a_tree_that_was_read_back_lends_from_its_first_leaf_on(rt: HostRuntime) -> Result<(), Fail> {
    assert!(rt; listed_lends_in_turn(rt.alloc())?);
    Ok(())
}

// Whether the tree lends the first of four leaves under 7, and then the others in turn.
fn lends_four(tree: &mut Tree) -> Result<(bool, bool), Fail> {
    let first = lends(tree, 7, zone(true, 1, true).as_slice())?;
    Ok((first, lends_in_turn(tree, zones_after().as_slice())?))
}

fn carried_lends_four(alloc: Global) -> Result<(bool, bool), Fail> {
    let mut tree = carried_over_12_0(alloc, four_leaves(alloc)?)?;
    lends_four(&mut tree)
}

#[test]
fn a_tree_that_was_carried_lends_from_its_first_leaf_on(rt: HostRuntime) -> Result<(), Fail> {
    assert_eq!(rt; carried_lends_four(rt.alloc())?, (true, true));
    Ok(())
}
