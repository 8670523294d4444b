//! Calls on a pool while memory runs out.

ghost use Rattle.std.specs.Prelude.{◌≡◌, IfOk};
ghost use Rattle.league_core.specs.game.Sheets.{IsWithinLimits};
ghost use Rattle.branch_pool.specs.inside.States.{out_count};

use crate::cases::Case;
use crate::rounds::pool_of;
use branch_pool::{Gave, Pool, Took};
use league_core::{Event, OutOfMemory, Score, Sheet, TreeNode};
use reason_core::Done;
use sample_leagues::sample_of;
use std::alloc::Global;
use std::test::Fail;
use verdict_run::finish;

/// Two clubs that meet once; four questions.
const TWO_CLUBS: &[u8] = b"league,Tiny,1\nclub,A,1\nclub,B,2\nmatch,A,B\nline,1\nseason\n";

/// C has no match, and is never first.
const IDLE: &[u8] = b"league,Idle,1\nclub,C,1\nclub,X,2\nclub,Y,3\nmatch,X,Y\nline,1\nseason\n";

// A pool of a text, with all its questions.
fn begun(alloc: Global, text: &[u8]) -> Result<Pool, Fail>
    ensures home { IfOk result (λ pool. out_count pool.loans ≡ 0) }
{
    let sample = sample_of(alloc, text).ok_or("no league")?;
    Ok(pool_of(alloc, &sample.sheet, Case::Worked)?)
}

/// So many events, so many numbers out, and a score known or not.
pub fn is_at(pool: &Pool, epoch: u64, out: u64, is_played: bool) -> bool {
    pool.epoch() == epoch && pool.out() == out && has_score(pool) == is_played
}

fn has_score(pool: &Pool) -> bool {
    pool.season().scores().iter().any(|score| score.is_some())
}

/// The nodes of all trees, tree by tree.
pub fn all_nodes(alloc: Global, pool: &Pool) -> Result<Vec<TreeNode>, Fail> {
    let mut all = Vec::new(alloc);
    for place in 0..pool.questions().len() {
        push_nodes(pool, place, &mut all)?;
    }
    Ok(all)
}

fn push_nodes(pool: &Pool, place: usize, all: &mut Vec<TreeNode>) -> Result<(), Fail> {
    if pool.questions().len() <= place || 192 <= place {
        return Err("no question".into());
    }
    let nodes = pool.tree(place as u16).nodes()?;
    Ok(all.extend_from_slice(nodes.as_slice())?)
}

/// Whether the trees have these nodes, and nothing is reported.
pub fn stays(alloc: Global, pool: &Pool, nodes: &[TreeNode]) -> Result<bool, Fail> {
    let own = all_nodes(alloc, pool)?;
    Ok(is_at(pool, 0, 0, false) && own.as_slice() == nodes)
}

// Whether the pool is as at its beginning.
fn is_begun(alloc: Global, pool: &Pool) -> Result<bool, Fail> {
    stays(alloc, pool, [TreeNode::Open; 4].as_slice())
}

fn begins_or_not(alloc: Global) -> Result<bool, Fail> {
    let sample = sample_of(alloc, TWO_CLUBS).ok_or("no league")?;
    begins_on(alloc, &sample.sheet)
}

fn begins_on(alloc: Global, sheet: &Sheet) -> Result<bool, Fail>
    requires { IsWithinLimits sheet.now }
{
    let begun = pool_of(alloc, sheet, Case::Worked);
    is_begun_or_none(alloc, &begun)
}

fn is_begun_or_none(alloc: Global, begun: &Result<Pool, OutOfMemory>) -> Result<bool, Fail> {
    match begun {
        Ok(pool) => is_begun(alloc, pool),
        Err(OutOfMemory) => Ok(true),
    }
}

#[test]
fn a_pool_begins_or_not(rt: HostRuntime) -> Result<(), Fail> {
    assert!(rt; begins_or_not(rt.alloc())?);
    Ok(())
}

// Takes and gives back; false if memory runs out.
fn is_taken(pool: &mut Pool) -> bool {
    match pool.take() {
        Took::Lent(ticket) => pool.give(ticket, Done::Undone) == Gave::Kept,
        Took::Rest | Took::Over | Took::OutOfMemory => false,
    }
}

// Whether the pool is as before, once a ticket was taken and given back.
fn takes_or_stays(alloc: Global, pool: &mut Pool) -> Result<bool, Fail> {
    let took = is_taken(pool) || (is_begun(alloc, pool)? && is_taken(pool));
    Ok(took && is_begun(alloc, pool)?)
}

// The same of a pool at its beginning.
fn begun_takes_or_stays(alloc: Global) -> Result<bool, Fail> {
    let mut pool = begun(alloc, TWO_CLUBS)?;
    takes_or_stays(alloc, &mut pool)
}

#[test]
fn take_leaves_the_pool(rt: HostRuntime) -> Result<(), Fail> {
    assert!(rt; begun_takes_or_stays(rt.alloc())?);
    Ok(())
}

// Reports a result; false if memory runs out.
fn is_told(pool: &mut Pool) -> Result<bool, Fail> {
    if pool.season().scores().is_empty() {
        return Err("no match".into());
    }
    let score = Score { home: 1, away: 0 };
    Ok(pool.change(Event::Set { fixture: 0, score }).is_ok())
}

// Whether the result was reported to the pool, at once or after it had stayed as it was.
fn changes_or_stays(alloc: Global, pool: &mut Pool) -> Result<bool, Fail> {
    let nodes = all_nodes(alloc, pool)?;
    let told = is_told(pool)? || (stays(alloc, pool, nodes.as_slice())? && is_told(pool)?);
    Ok(told && is_at(pool, 1, 0, true))
}

// The same of a pool at its beginning.
fn begun_changes_or_stays(alloc: Global) -> Result<bool, Fail> {
    let mut pool = begun(alloc, TWO_CLUBS)?;
    open_changes_or_stays(alloc, &mut pool)
}

fn open_changes_or_stays(alloc: Global, pool: &mut Pool) -> Result<bool, Fail> {
    Ok(is_begun(alloc, pool)? && changes_or_stays(alloc, pool)?)
}

#[test]
fn change_leaves_the_pool(rt: HostRuntime) -> Result<(), Fail> {
    assert!(rt; begun_changes_or_stays(rt.alloc())?);
    Ok(())
}

/// The pool of C with all work done.
pub fn worked(alloc: Global) -> Result<Pool, Fail>
    ensures home { IfOk result (λ pool. out_count pool.loans ≡ 0) }
{
    let pool = begun(alloc, IDLE)?;
    Ok(finish(alloc, pool)?)
}

/// Whether the pool has six questions, and the first of these nodes of its trees is a split.
pub fn is_split(pool: &Pool, nodes: &[TreeNode]) -> bool {
    let is_first_split = match nodes.first() {
        Some(TreeNode::Split { .. }) => true,
        _ => false,
    };
    pool.questions().len() == 6 && is_first_split
}

// The same of that pool, whose first tree is split.
fn worked_changes_or_stays(alloc: Global) -> Result<bool, Fail> {
    let mut pool = worked(alloc)?;
    split_changes_or_stays(alloc, &mut pool)
}

fn split_changes_or_stays(alloc: Global, pool: &mut Pool) -> Result<bool, Fail> {
    let nodes = all_nodes(alloc, pool)?;
    Ok(is_split(pool, nodes.as_slice()) && changes_or_stays(alloc, pool)?)
}

#[test]
fn change_leaves_a_pool_that_was_worked_on(rt: HostRuntime) -> Result<(), Fail> {
    assert!(rt; worked_changes_or_stays(rt.alloc())?);
    Ok(())
}
