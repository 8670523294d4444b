//! Rows worked by hand.

use crate::help::{
    answer_at, finished, give_undone, is_over, nodes_at, pool_of, tell, two_taken, units_at,
    work_next,
};
use branch_pool::{Answer, Gave, Pool};
use league_core::{Event, Reason, Score, TreeNode};
use std::alloc::Global;
use std::test::Fail;

/// Two clubs and one match, at most one goal a side: four questions, each of which has an example.
const TWO_CLUBS: &[u8] = b"league,Tiny,1\nclub,A,1\nclub,B,2\nmatch,A,B\nline,1\nseason\n";

/// C has no match, and is never first; with one unit of work nobody can know.
const IDLE: &[u8] = b"league,Idle,1,1\nclub,C,1\nclub,X,2\nclub,Y,3\nmatch,X,Y\nline,1\nseason\n";

/// K01 has beaten K02 twice, and one round is open.
const SIXTEEN: &[u8] = b"league,Sixteen,20\nclub,K01,1\nclub,K02,2\nclub,K03,3\nclub,K04,4
club,K05,5\nclub,K06,6\nclub,K07,7\nclub,K08,8\nclub,K09,9\nclub,K10,10\nclub,K11,11\nclub,K12,12
club,K13,13\nclub,K14,14\nclub,K15,15\nclub,K16,16\nmatch,K01,K02\nmatch,K01,K02\nmatch,K01,K02
match,K03,K04\nmatch,K05,K06\nmatch,K07,K08\nmatch,K09,K10\nmatch,K11,K12\nmatch,K13,K14
match,K15,K16\nline,1\nseason\n";

const OUTSIDE_OF_THE_FIRST: u16 = 1;

fn result(fixture: u16, home: u8, away: u8) -> Event {
    Event::Set {
        fixture,
        score: Score { home, away },
    }
}

fn all_leaves_are_open(pool: &Pool) -> Result<bool, Fail> {
    for place in 0..4u16 {
        if nodes_at(pool, place)?.as_slice() != [TreeNode::Open].as_slice() {
            return Ok(false);
        }
    }
    Ok(true)
}

fn are_all_won(pool: &Pool) -> bool {
    for place in 0..4u16 {
        if answer_at(pool, place) != Some(Answer::Won) {
            return false;
        }
    }
    true
}

// How many of four pieces, worked on one after the other, are kept.
fn four_worked(alloc: Global, pool: &mut Pool) -> Result<u32, Fail> {
    let mut kept = 0u32;
    for _ in 0..4 {
        if work_next(alloc, pool)? == Gave::Kept {
            kept = kept.saturating_add(1);
        }
    }
    Ok(kept)
}

// How many of four pieces are kept if no event will come; whether nothing is left then, and whether
// all questions are won.
fn worked_until_over(alloc: Global, pool: &mut Pool) -> Result<(u32, bool, bool), Fail> {
    pool.shut();
    let kept = four_worked(alloc, pool)?;
    Ok((kept, is_over(pool), are_all_won(pool)))
}

fn two_clubs_until_over(alloc: Global) -> Result<(u32, bool, bool), Fail> {
    let mut pool = pool_of(alloc, TWO_CLUBS)?;
    worked_until_over(alloc, &mut pool)
}

#[test]
fn tickets_are_worked_until_over(rt: HostRuntime) -> Result<(), Fail> {
    assert!(rt; two_clubs_until_over(rt.alloc())? == (4, true, true));
    Ok(())
}

type Worked = (Gave, Option<Answer>, Option<u32>);

// What became of a piece that is worked on, how far the first question is, and its units.
fn worked_once(alloc: Global, pool: &mut Pool) -> Result<Worked, Fail> {
    let gave = work_next(alloc, pool)?;
    Ok((gave, answer_at(pool, 0), units_at(pool, 0)))
}

fn idle_worked_once(alloc: Global) -> Result<Worked, Fail> {
    let mut pool = pool_of(alloc, IDLE)?;
    worked_once(alloc, &mut pool)
}

#[test]
fn one_unit_is_the_whole_budget(rt: HostRuntime) -> Result<(), Fail> {
    let (gave, answer, units) = idle_worked_once(rt.alloc())?;
    assert_eq!(rt; gave, Gave::Kept);
    assert_eq!(rt; (answer, units), (Some(Answer::Spent), Some(1)));
    Ok(())
}

// What became of two tickets, three numbers, and whether all leaves are open at the end.
type Given = ([Gave; 2], [u64; 3], bool);

// Takes two tickets, and gives them back after a recall; the numbers are how many were out before
// it, after it and at the end.
fn recalled(pool: &mut Pool) -> Result<Given, Fail> {
    let (one, two) = two_taken(pool)?;
    let out = pool.out();
    pool.recall();
    let recalled = pool.out();
    let gave = [give_undone(pool, one), give_undone(pool, two)];
    Ok((
        gave,
        [out, recalled, pool.out()],
        all_leaves_are_open(pool)?,
    ))
}

fn two_clubs_recalled(alloc: Global) -> Result<Given, Fail> {
    let mut pool = pool_of(alloc, TWO_CLUBS)?;
    recalled(&mut pool)
}

#[test]
fn what_is_recalled_comes_back_stale(rt: HostRuntime) -> Result<(), Fail> {
    let (gave, out, are_open) = two_clubs_recalled(rt.alloc())?;
    assert!(rt; out == [2, 0, 0]);
    assert!(rt; gave == [Gave::Stale { epoch: 0 }, Gave::Stale { epoch: 0 }]);
    assert!(rt; are_open);
    Ok(())
}

// Takes two tickets, and gives them back after a result; the numbers are the epoch and how many
// numbers are out before and at the end.
fn overtaken(pool: &mut Pool) -> Result<Given, Fail> {
    let (one, two) = two_taken(pool)?;
    let out = pool.out();
    let told = tell(pool, result(0, 0, 0));
    let gave = [give_undone(pool, one), give_undone(pool, two)];
    Ok((gave, [told?, out, pool.out()], all_leaves_are_open(pool)?))
}

fn two_clubs_overtaken(alloc: Global) -> Result<Given, Fail> {
    let mut pool = pool_of(alloc, TWO_CLUBS)?;
    overtaken(&mut pool)
}

#[test]
fn what_is_out_when_a_result_comes_is_stale(rt: HostRuntime) -> Result<(), Fail> {
    let (gave, end, are_open) = two_clubs_overtaken(rt.alloc())?;
    assert!(rt; end == [1, 2, 0]);
    assert!(rt; gave == [Gave::Stale { epoch: 1 }, Gave::Stale { epoch: 1 }]);
    assert!(rt; are_open);
    Ok(())
}

// Reports two results of 1:0.
fn tell_two_wins(pool: &mut Pool) -> Result<(), Fail> {
    tell(pool, result(0, 1, 0))?;
    tell(pool, result(1, 1, 0))?;
    Ok(())
}

/// The pool of the sixteen after two results of 1:0.
pub fn sixteen_told(alloc: Global) -> Result<Pool, Fail> {
    let mut pool = pool_of(alloc, SIXTEEN)?;
    tell_two_wins(&mut pool)?;
    Ok(pool)
}

// The pool of the sixteen after two results of 1:0, with all work done.
fn sixteen(alloc: Global) -> Result<Pool, Fail> {
    finished(alloc, sixteen_told(alloc)?)
}

pub type Kinds = (u32, u32, u32, u32);

// How many nodes of a tree are splits, leaves refuted by a set, leaves refuted by count, and open
// leaves.
fn kinds(nodes: &[TreeNode]) -> Kinds {
    let mut kinds = (0u32, 0u32, 0u32, 0u32);
    for node in nodes {
        match node {
            TreeNode::Split { .. } => kinds.0 = kinds.0.saturating_add(1),
            TreeNode::Refuted {
                reason: Reason::Low(_) | Reason::High(_),
                ..
            } => { kinds.1 = kinds.1.saturating_add(1) }
            TreeNode::Refuted {
                reason: Reason::Count,
                ..
            } => kinds.2 = kinds.2.saturating_add(1),
            TreeNode::Open => kinds.3 = kinds.3.saturating_add(1),
            _ => {}
        }
    }
    kinds
}

/// The kinds of the nodes of a tree, how far its question is, and its units.
pub type Tree = (Kinds, Option<Answer>, Option<u32>);

/// The tree of the question at a place.
pub fn seen_at(pool: &Pool, place: u16) -> Result<Tree, Fail> {
    let nodes = nodes_at(pool, place)?;
    let answer = answer_at(pool, place);
    let units = units_at(pool, place);
    Ok((kinds(nodes.as_slice()), answer, units))
}

/// The second tree.
pub fn second(pool: &Pool) -> Result<Tree, Fail> {
    seen_at(pool, OUTSIDE_OF_THE_FIRST)
}

// The second tree before and after a corrected score of the first match.
fn corrected(pool: &mut Pool, home: u8, away: u8) -> Result<(Tree, Tree), Fail> {
    let before = second(pool)?;
    tell(pool, result(0, home, away))?;
    Ok((before, second(pool)?))
}

fn sixteen_corrected(alloc: Global, home: u8, away: u8) -> Result<(Tree, Tree), Fail> {
    let mut pool = sixteen(alloc)?;
    corrected(&mut pool, home, away)
}

#[test]
fn a_corrected_score_without_new_points_keeps_the_tree(rt: HostRuntime) -> Result<(), Fail> {
    let (before, after) = sixteen_corrected(rt.alloc(), 2, 0)?;
    assert_eq!(rt; before.0, (15, 15, 1, 0));
    assert_eq!(rt; after, ((15, 15, 1, 0), Some(Answer::Refuted), Some(0)));
    Ok(())
}

#[test]
fn a_corrected_score_opens_what_no_longer_holds(rt: HostRuntime) -> Result<(), Fail> {
    let (_, after) = sixteen_corrected(rt.alloc(), 0, 1)?;
    assert_eq!(rt; after, ((15, 0, 1, 15), Some(Answer::NotYet), Some(0)));
    Ok(())
}
