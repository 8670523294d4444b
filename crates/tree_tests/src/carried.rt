//! Trees that are carried over a result.

ghost use Rattle.std.specs.Prelude.{◌≡◌, All, IsTrue, IfOk, length};
ghost use Rattle.league_core.specs.game.Seasons.{IsLeague};
ghost use Rattle.league_core.specs.declared.sheet.Sheet.{Sheet};
ghost use Rattle.tree_arena.specs.inside.Calls.{IsNodeOf, AreTestsOf};

use crate::rows::tree_or_fail;
use league_core::{Claim, OutOfMemory, Question, Sheet, Test, TreeNode};
use reference_programs::{BoxedTree, ZoneTree};
use sample_leagues::{Sample, sample_of};
use std::alloc::Global;
use std::test::Fail;
use tree_arena::Tree;

/// Two clubs that meet twice, with a goal limit of 5. A won the first match by more than that.
const WON_12_0: &[u8] = b"league,Tiny,5\nclub,A,1\nclub,B,2\nmatch,A,B\nmatch,B,A\nline,1
season\nresult,1,12,0\n";

/// The same, and A won by two goals.
const WON_2_0: &[u8] = b"league,Tiny,5\nclub,A,1\nclub,B,2\nmatch,A,B\nmatch,B,A\nline,1
season\nresult,1,2,0\n";

const A_FIRST: Question = Question {
    club: 0,
    line: 1,
    claim: Claim::Inside,
    low: -99,
    high: 1800,
};

fn is_node_of(node: &TreeNode, fixtures: usize) -> bool
    ensures { (sheet : Sheet) → length sheet.fixtures ≡ fixtures → IsTrue result
        → IsNodeOf sheet node.now }
{
    match node {
        TreeNode::Open | TreeNode::Lent(_) | TreeNode::Refuted { .. } => true,
        TreeNode::Split { test, .. } => match test {
            Test::HomeMost { fixture, .. } | Test::AwayMost { fixture, .. } => {
                (*fixture as usize) < fixtures
            }
            Test::Home { .. } | Test::Draw { .. } | Test::Rival { .. } => false,
        },
    }
}

fn are_nodes_of(sheet: &Sheet, nodes: &[TreeNode]) -> bool
    ensures { IsTrue result → All (IsNodeOf sheet.now) nodes.now }
{
    let fixtures = sheet.fixtures.len();
    nodes.iter().all(|node| is_node_of(node, fixtures))
}

fn are_tests_of<T: ZoneTree>(sheet: &Sheet, tree: &T) -> Result<bool, OutOfMemory>
    ensures { IfOk result (λ are. IsTrue are → AreTestsOf sheet.now (T.seen tree.now)) }
{
    let nodes = tree.nodes()?;
    Ok(are_nodes_of(sheet, nodes.as_slice()))
}

// What a season leaves of a tree that is split by the goals of its matches alone.
fn carried_in<T: ZoneTree>(alloc: Global, sample: &Sample, tree: &T) -> Result<T, Fail>
    requires league { IsLeague sample.now.sheet sample.now.season }
{
    if !are_tests_of(&sample.sheet, tree)? || sample.sheet.clubs.is_empty() {
        return Err("a tree of another sheet".into());
    }
    Ok(T::retarget(alloc, &sample.sheet, &A_FIRST, tree, &sample.season)?)
}

// The same of the season of a text.
fn carried<T: ZoneTree>(alloc: Global, text: &[u8], tree: &T) -> Result<T, Fail> {
    let sample = sample_of(alloc, text).ok_or("no league")?;
    carried_in(alloc, &sample, tree)
}

/// What the win by twelve goals leaves of the tree of a list.
pub fn carried_over_12_0(alloc: Global, nodes: Vec<TreeNode>) -> Result<Tree, Fail> {
    let tree: Tree = tree_or_fail(nodes)?;
    carried(alloc, WON_12_0, &tree)
}

// At most so many goals of B in the second match, both halves open.
fn goals_of_b(alloc: Global, most: u8, fresh: bool) -> Result<Vec<TreeNode>, OutOfMemory> {
    let test = Test::HomeMost { fixture: 1, most };
    Ok(vec![in alloc;
        TreeNode::Split { test, fresh },
        TreeNode::Open,
        TreeNode::Open,
    ]?)
}

// At most two goals of A in the first match; below them at most 3 and at most 4 of B in the
// second.
fn goals_of_both<T: ZoneTree>(alloc: Global) -> Result<T, Fail> {
    let fresh = true;
    let test = Test::HomeMost {
        fixture: 0,
        most: 2,
    };
    let mut nodes = vec![in alloc; TreeNode::Split { test, fresh }]?;
    nodes.extend_from_slice(goals_of_b(alloc, 3, fresh)?.as_slice())?;
    nodes.extend_from_slice(goals_of_b(alloc, 4, fresh)?.as_slice())?;
    tree_or_fail(nodes)
}

// Whether the season of a text leaves the split of the second match by so many goals.
fn leaves_goals_of_b<T: ZoneTree + Drop>(
    alloc: Global,
    text: &[u8],
    tree: &T,
    most: u8,
) -> Result<bool, Fail> {
    let wanted = goals_of_b(alloc, most, false)?;
    let left = carried(alloc, text, tree)?;
    gives(&left, wanted.as_slice())
}

fn gives<T: ZoneTree>(tree: &T, nodes: &[TreeNode]) -> Result<bool, Fail> {
    Ok(tree.nodes()?.as_slice() == nodes)
}

fn leaves_halves<T: ZoneTree + Drop>(alloc: Global, tree: &T) -> Result<bool, Fail> {
    Ok(leaves_goals_of_b(alloc, WON_12_0, tree, 4)? && leaves_goals_of_b(alloc, WON_2_0, tree, 3)?)
}

fn is_half_of_the_score<T: ZoneTree + Drop>(alloc: Global) -> Result<bool, Fail> {
    let tree: T = goals_of_both(alloc)?;
    leaves_halves(alloc, &tree)
}

#[test]
fn a_split_of_a_played_match_becomes_the_half_of_its_score(rt: HostRuntime) -> Result<(), Fail> {
    assert!(rt; is_half_of_the_score::<Tree>(rt.alloc())?);
    assert!(rt; is_half_of_the_score::<BoxedTree>(rt.alloc())?);
    Ok(())
}
