//! A pool goes on from a tree that another pool of the same sheet made, by hand.
//!
//! C has no match, and when X and Y meet one of them takes a point, so that C is never first. The
//! tree asks whether X comes before C, and whether Y does. Where one does, its leaf counts it; at
//! the last leaf neither does, and the two together have more points than that leaves room for.

ghost use Rattle.std.specs.Prelude.{◌≡◌, IfOk, IfSome};
ghost use Rattle.std.specs.List.{slice_get};
ghost use Rattle.league_core.specs.game.Sheets.{IsWithinLimits};
ghost use Rattle.tree_reuse.specs.Asked.{IsAskedTree};
ghost use Rattle.answer_rows.specs.AskedQuestions.{questions_of};

use crate::help::{finished, pool_of_sheet, tell};
use crate::rows::{Tree as Seen, seen_at};
use branch_pool::{Answer, Pool, QuestionState};
use league_core::{Event, Sheet};
use sample_leagues::sample_of;
use std::alloc::Global;
use std::test::Fail;
use tree_arena::Tree;

const IDLE: &[u8] = b"league,Idle,1\nclub,C,1\nclub,X,2\nclub,Y,3\nmatch,X,Y\nline,1\nseason\n";

fn tree_of(seat: QuestionState) -> Tree
    ensures { result ≡ seat.tree }
{
    seat.tree
}

// The tree of the first question of a pool, in place of the pool.
fn first_tree(pool: Pool) -> Result<Tree, Fail>
    ensures { IfOk result (λ tree. IfSome (slice_get pool.questions 0)
        (λ question. IsAskedTree pool.sheet question tree)) }
{
    let mut seats = pool.into_seats();
    if seats.is_empty() {
        return Err("nothing is asked".into());
    }
    let seat = seats.remove(0);
    let tree = tree_of(seat);
    Ok(tree)
}

// The first tree of a pool with all work done.
fn made(alloc: Global, sheet: &Sheet) -> Result<Tree, Fail>
    requires { IsWithinLimits sheet.now }
    ensures { IfOk result (λ tree. IfSome (slice_get (questions_of sheet.now) 0)
        (λ question. IsAskedTree sheet.now question tree)) }
{
    let pool = finished(alloc, pool_of_sheet(alloc, sheet)?)?;
    first_tree(pool)
}

// The first question of a pool goes on from the tree of another pool.
fn adopt_first(alloc: Global, sheet: &Sheet, pool: &mut Pool) -> Result<(), Fail>
    requires limits { IsWithinLimits sheet.now }
    requires sheet { pool.old.sheet ≡ sheet.now }
    requires questions { pool.old.questions ≡ questions_of sheet.now }
{
    if pool.out() > 0 || pool.questions().is_empty() {
        return Err("a number is out, or nothing is asked".into());
    }
    let tree = made(alloc, sheet)?;
    Ok(pool.adopt(0, tree)?)
}

// X and Y have so many points deducted.
fn deduct(pool: &mut Pool, points: u8) -> Result<(), Fail>
    ensures sheet { pool.new.sheet ≡ pool.old.sheet }
    ensures questions { pool.new.questions ≡ pool.old.questions }
{
    tell(pool, Event::Deduct { club: 1, points })?;
    tell(pool, Event::Deduct { club: 2, points })?;
    Ok(())
}

// A pool that is told of the deductions first, and then adopts the tree.
fn adopting(alloc: Global, sheet: &Sheet, points: u8) -> Result<Pool, Fail>
    requires { IsWithinLimits sheet.now }
{
    let mut pool = pool_of_sheet(alloc, sheet)?;
    deduct(&mut pool, points)?;
    adopt_first(alloc, sheet, &mut pool)?;
    Ok(pool)
}

// The first tree of a pool as it is, and with all work done.
fn before_and_after(alloc: Global, pool: Pool) -> Result<(Seen, Seen), Fail> {
    let before = seen_at(&pool, 0)?;
    let pool = finished(alloc, pool)?;
    Ok((before, seen_at(&pool, 0)?))
}

fn adopted(alloc: Global, points: u8) -> Result<(Seen, Seen), Fail> {
    let sample = sample_of(alloc, IDLE).ok_or("no league")?;
    before_and_after(alloc, adopting(alloc, &sample.sheet, points)?)
}

// Two splits, and three leaves: one by a set, and two by count.
#[test]
fn a_tree_that_holds_is_adopted_whole(rt: HostRuntime) -> Result<(), Fail> {
    let whole = ((2, 1, 2, 0), Some(Answer::Refuted), Some(0));
    assert_eq!(rt; adopted(rt.alloc(), 0)?, (whole, whole));
    Ok(())
}

// With two points less each, X and Y draw and stay behind C: the last leaf is open again, and has
// an example.
#[test]
fn a_leaf_that_no_longer_holds_is_adopted_open(rt: HostRuntime) -> Result<(), Fail> {
    let (before, after) = adopted(rt.alloc(), 2)?;
    assert_eq!(rt; before, ((2, 0, 2, 1), Some(Answer::NotYet), Some(0)));
    assert_eq!(rt; after.1, Some(Answer::Won));
    Ok(())
}
