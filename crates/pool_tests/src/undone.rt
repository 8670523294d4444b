//! A thousand tickets come back without work: nothing is lost.

use crate::help::{answer_at, finished, give_undone, two_taken};
use crate::rows::{Kinds, second, sixteen_told};
use branch_pool::{Answer, Gave, Pool};
use std::alloc::Global;
use std::test::Fail;

// Takes two tickets and gives them back; how many were kept.
fn two_undone(pool: &mut Pool) -> Result<u32, Fail> {
    let (one, two) = two_taken(pool)?;
    let one = u32::from(give_undone(pool, one) == Gave::Kept);
    let two = u32::from(give_undone(pool, two) == Gave::Kept);
    Ok(one.saturating_add(two))
}

// The same five hundred times.
fn thousand_undone(pool: &mut Pool) -> Result<u32, Fail> {
    let mut kept = 0u32;
    for _ in 0..500 {
        kept = kept.saturating_add(two_undone(pool)?);
    }
    Ok(kept)
}

// What a question comes to, the one about being inside before the one about being outside of each
// club: the first club is inside in any case, and no other is.
fn known_of(place: u16) -> Option<Answer> {
    let is_first = place < 2;
    let is_inside = place % 2 == 0;
    if is_first == is_inside {
        Some(Answer::Won)
    } else {
        Some(Answer::Refuted)
    }
}

// How many of the 32 questions are answered so.
fn decided(pool: &Pool) -> u32 {
    let mut count = 0u32;
    for place in 0..32u16 {
        if answer_at(pool, place) == known_of(place) {
            count = count.saturating_add(1);
        }
    }
    count
}

// What is kept of a thousand tickets, what is out then, and what the pool comes to in the end: how
// many questions are answered, and the tree that shows the first club never outside.
type End = (u32, u64, u32, Kinds);

fn ended(alloc: Global, mut pool: Pool) -> Result<End, Fail> {
    let kept = thousand_undone(&mut pool)?;
    let out = pool.out();
    let pool = finished(alloc, pool)?;
    Ok((kept, out, decided(&pool), second(&pool)?.0))
}

fn sixteen_undone(alloc: Global) -> Result<End, Fail> {
    ended(alloc, sixteen_told(alloc)?)
}

#[test]
fn what_comes_back_undone_is_worked_on_later(rt: HostRuntime) -> Result<(), Fail> {
    let end = sixteen_undone(rt.alloc())?;
    assert_eq!(rt; end, (1000, 0, 32, (15, 15, 1, 0)));
    Ok(())
}
