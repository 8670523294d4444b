//! Calls on a tree while memory runs out.

ghost use Rattle.std.specs.Prelude.{◌≡◌, true, All, IsTrue, IfOk, length};
ghost use Rattle.league_core.specs.declared.sheet.Sheet.{Sheet};
ghost use Rattle.league_core.specs.game.Seasons.{IsLeague};
ghost use Rattle.league_core.specs.search.Trees.{open_leaf, branch};
ghost use Rattle.league_core.specs.search.Zones.{is_test_of};
ghost use Rattle.tree_arena.specs.inside.Calls.{IsNodeOf, AreTestsOf};

use league_core::{Claim, OutOfMemory, Question, Reason, Season, Sheet, Test, TreeNode};
use sample_leagues::{Sample, is_below, sample_of};
use std::alloc::Global;
use std::test::Fail;
use tree_arena::{Tree, TreeStop};
use tree_reuse::retarget;

/// Two clubs that meet twice, and the first match played.
const TWO_CLUBS: &[u8] = b"league,Tiny,1\nclub,A,1\nclub,B,2\nmatch,A,B\nmatch,B,A\nline,1\nseason
result,1,1,0\n";

// The nodes of a text, sign by sign: `R` is a split by B's rank, `H` one by the first match, `C` a
// leaf that is refuted by count, in small letters what is not fresh; `L` is a leaf that is lent
// under 1, `O` an open one.
fn nodes_of(alloc: Global, text: &[u8]) -> Result<Vec<TreeNode>, OutOfMemory> {
    let mut nodes = Vec::new(alloc);
    for sign in text {
        nodes.push(node_of(*sign))?;
    }
    Ok(nodes)
}

fn node_of(sign: u8) -> TreeNode {
    let fresh = sign.is_ascii_uppercase();
    match sign {
        b'R' | b'r' => TreeNode::Split {
            test: Test::Rival { club: 1 },
            fresh,
        },
        b'H' => TreeNode::Split {
            test: MATCH_WON,
            fresh,
        },
        b'C' | b'c' => TreeNode::Refuted {
            reason: Reason::Count,
            fresh,
        },
        b'L' => TreeNode::Lent(1),
        _ => TreeNode::Open,
    }
}

/// A leaf that counts B before A, and two leaves of the first match.
const THREE_LEAVES: &[u8] = b"RCHOO";

/// What the match that A won leaves of it.
const LEAVES_LEFT: &[u8] = b"rcO";

const MATCH_WON: Test = Test::Home { fixture: 0 };

// A new split of which both halves are open.
#[tactic(auto, using(crate::proofs::HalfLemmas::one_lent))]
fn two_halves(alloc: Global) -> Result<Tree, OutOfMemory>
    ensures { IfOk result (λ tree. tree ≡ branch MATCH_WON true open_leaf open_leaf) }
{
    let mut tree = Tree::root(alloc)?;
    let lent = tree.lend(1)?;
    match lent {
        Some(_) => {
            tree.split(1, MATCH_WON);
            Ok(tree)
        }
        None => unreachable!(),
    }
}

// Whether a tree has the nodes of a text.
fn has_nodes(tree: &Tree, text: &[u8]) -> Result<bool, OutOfMemory> {
    let own = tree.nodes()?;
    Ok(are_those(own.as_slice(), text))
}

fn are_those(nodes: &[TreeNode], text: &[u8]) -> bool {
    nodes.len() == text.len()
        && nodes
            .iter()
            .zip(text)
            .all(|(node, sign)| *node == node_of(*sign))
}

// Whether a tree has a leaf that is lent, or stays as it was.
fn root_lends_or_stays(alloc: Global) -> Result<bool, OutOfMemory> {
    let mut tree = Tree::root(alloc)?;
    let wanted = if tree.lend(1).is_ok() { b"L" } else { b"O" };
    has_nodes(&tree, wanted)
}

#[test]
fn lend_leaves_an_open_leaf(rt: HostRuntime) -> Result<(), Fail> {
    assert!(rt; root_lends_or_stays(rt.alloc())?);
    Ok(())
}

// The way to the leaf needs memory after the leaf was marked.
fn halves_lend_or_stay(alloc: Global) -> Result<bool, OutOfMemory> {
    let mut tree = two_halves(alloc)?;
    let wanted = if tree.lend(1).is_ok() { b"HLO" } else { b"HOO" };
    has_nodes(&tree, wanted)
}

#[test]
fn lend_leaves_open_halves(rt: HostRuntime) -> Result<(), Fail> {
    assert!(rt; halves_lend_or_stay(rt.alloc())?);
    Ok(())
}

fn tree_of(nodes: Vec<TreeNode>) -> Result<Tree, TreeStop> {
    if nodes.len() > 1_000_000 {
        return Err(TreeStop::NoTree(nodes));
    }
    Tree::of_nodes(*nodes.allocator(), nodes)
}

// Whether the list of a text gives its tree; none if memory runs out.
fn gives_tree(alloc: Global, text: &[u8]) -> Result<Option<bool>, Fail> {
    let made = tree_of(nodes_of(alloc, text)?);
    is_made(&made, text)
}

fn is_made(made: &Result<Tree, TreeStop>, text: &[u8]) -> Result<Option<bool>, Fail> {
    match made {
        Ok(tree) => Ok(Some(has_nodes(tree, text)?)),
        Err(TreeStop::NoTree(_)) => Ok(Some(false)),
        Err(TreeStop::OutOfMemory) => Ok(None),
    }
}

#[test]
fn a_list_of_a_tree_is_never_refused_as_none(rt: HostRuntime) -> Result<(), Fail> {
    assert!(rt; gives_tree(rt.alloc(), THREE_LEAVES)? != Some(false));
    Ok(())
}

fn is_node_of(node: &TreeNode, fixtures: usize, clubs: usize) -> bool
    ensures { (sheet : Sheet) → length sheet.fixtures ≡ fixtures → length sheet.clubs ≡ clubs
        → IsTrue result → IsNodeOf sheet node.now }
{
    match node {
        TreeNode::Open | TreeNode::Lent(_) | TreeNode::Refuted { .. } => true,
        TreeNode::Split { test, .. } => is_below(test, fixtures, clubs),
    }
}

fn are_nodes_of(sheet: &Sheet, nodes: &[TreeNode]) -> bool
    ensures { IsTrue result → All (IsNodeOf sheet.now) nodes.now }
{
    let fixtures = sheet.fixtures.len();
    let clubs = sheet.clubs.len();
    nodes.iter().all(|node| is_node_of(node, fixtures, clubs))
}

fn are_tests_of(sheet: &Sheet, tree: &Tree) -> Result<bool, OutOfMemory>
    ensures { IfOk result (λ are. IsTrue are → AreTestsOf sheet.now tree.now) }
{
    let nodes = tree.nodes()?;
    Ok(are_nodes_of(sheet, nodes.as_slice()))
}

const A_FIRST: Question = Question {
    club: 0,
    line: 1,
    claim: Claim::Inside,
    low: -99,
    high: 1800,
};

// What the season leaves of a tree; none if memory runs out.
fn carried(alloc: Global, tree: &Tree) -> Result<Option<Tree>, Fail> {
    let sample = sample_of(alloc, TWO_CLUBS).ok_or("no league")?;
    carried_in(alloc, &sample, tree)
}

fn carried_in(alloc: Global, sample: &Sample, tree: &Tree) -> Result<Option<Tree>, Fail>
    requires { IsLeague sample.now.sheet sample.now.season }
{
    if !are_tests_of(&sample.sheet, tree)? || sample.sheet.clubs.is_empty() {
        return Err("a tree of another sheet".into());
    }
    Ok(retarget(alloc, &sample.sheet, &A_FIRST, tree, &sample.season).ok())
}

// Whether the season leaves what it should of a tree, if there was memory for it.
fn carries_or_not(alloc: Global, tree: &Tree) -> Result<bool, Fail> {
    let carried = carried(alloc, tree)?;
    is_left(&carried)
}

fn is_left(carried: &Option<Tree>) -> Result<bool, Fail> {
    match carried {
        Some(carried) => Ok(has_nodes(carried, LEAVES_LEFT)?),
        None => Ok(true),
    }
}

fn carries_and_stays(alloc: Global, tree: &Tree) -> Result<bool, Fail> {
    let is_carried = carries_or_not(alloc, tree)?;
    Ok(is_carried && has_nodes(tree, THREE_LEAVES)?)
}

fn three_leaves_stay(alloc: Global) -> Result<bool, Fail> {
    let nodes = nodes_of(alloc, THREE_LEAVES)?;
    let tree = tree_of(nodes).map_err(|_| "no tree")?;
    carries_and_stays(alloc, &tree)
}

#[test]
fn a_tree_that_is_carried_stays(rt: HostRuntime) -> Result<(), Fail> {
    assert!(rt; three_leaves_stay(rt.alloc())?);
    Ok(())
}
