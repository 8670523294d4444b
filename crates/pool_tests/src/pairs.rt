//! A pool and a plain one to which the same happens.

ghost use Rattle.league_core.specs.game.Sheets.{IsWithinLimits};

use crate::decided::{are_gone, decided_by};
use crate::held::{Held, give_to, held_of};
use crate::help::{pool_in_window, tell};
use crate::plain::{PlainPool, PlainSeat, same};
use crate::seen::{Seen, none_seen};
use branch_pool::{Pool, QuestionState, Took};
use league_core::{Event, Sheet};
use std::alloc::Global;
use std::test::Fail;

/// A pool, and a plain one to which the same happens.
#[derive(Drop)]
pub struct Pair {
    pub pool: Pool,
    pub plain: PlainPool,
    pub seen: Seen,
}

pub fn pair_of(alloc: Global, sheet: &Sheet, window: (i32, i32)) -> Result<Pair, Fail>
    requires { IsWithinLimits sheet.now }
{
    let pool = pool_in_window(alloc, sheet, window)?;
    let plain = PlainPool::begin(alloc, sheet, pool.questions())?;
    let seen = none_seen();
    Ok(Pair { pool, plain, seen })
}

/// Takes from both; the plain pool lends the leaf that the pool has chosen.
pub fn take(alloc: Global, pair: &mut Pair) -> Result<Option<Held>, Fail> {
    match pair.pool.take() {
        Took::Lent(ticket) => {
            let held = held_of(ticket);
            pair.plain.lend(alloc, &held)?;
            Ok(Some(held))
        }
        Took::Rest => has_none(pair, true),
        Took::Over => has_none(pair, false),
        Took::OutOfMemory => Err("no memory".into()),
    }
}

fn has_none(pair: &mut Pair, goes_on: bool) -> Result<Option<Held>, Fail> {
    pair.seen.none(goes_on);
    same(pair.plain.next_place().is_none(), "there is work")?;
    same(pair.plain.may_go_on() == goes_on, "rest or over")?;
    Ok(None)
}

pub fn give(alloc: Global, pair: &mut Pair, held: &Held, is_worked: bool) -> Result<(), Fail> {
    let (gave, found) = give_to(alloc, &mut pair.pool, held, is_worked)?;
    pair.seen.gave(gave);
    same(pair.plain.give(held, found)? == gave, "kept or stale")
}

pub fn change(alloc: Global, pair: &mut Pair, event: Event) -> Result<(), Fail> {
    let decided = decided_by(alloc, &pair.plain, &event)?;
    pair.seen.decided = pair.seen.decided.saturating_add(decided);
    let epoch = tell(&mut pair.pool, event)?;
    pair.plain.change(alloc, pair.pool.sheet(), event)?;
    are_gone(alloc, &pair.plain, &event)?;
    same(epoch == pair.plain.epoch, "the epoch that is answered")
}

pub fn recall(pair: &mut Pair) {
    pair.pool.recall();
    pair.plain.recall();
}

pub fn open(pair: &mut Pair, is_open: bool) {
    if is_open {
        pair.pool.start();
    } else {
        pair.pool.shut();
    }
    pair.plain.is_open = is_open;
}

pub fn compare(pair: &Pair) -> Result<(), Fail> {
    compare_whole(&pair.pool, &pair.plain)?;
    for place in 0..pair.plain.seats.len() {
        compare_at(pair, place)?;
    }
    Ok(())
}

fn compare_whole(pool: &Pool, plain: &PlainPool) -> Result<(), Fail> {
    same(pool.epoch() == plain.epoch, "the epoch")?;
    same(pool.out() == plain.out() as u64, "what is out")?;
    same(pool.season().equals(&plain.season), "the season")
}

fn compare_at(pair: &Pair, place: usize) -> Result<(), Fail> {
    if pair.pool.questions().len() <= place || pair.plain.seats.len() <= place {
        return Err("no question".into());
    }
    let plain = &pair.plain.seats[place];
    let answer = pair.pool.answer(place as u16);
    same(answer == plain.answer(pair.plain.budget), "the answer")?;
    compare_seat(pair.pool.seat(place as u16), plain)
}

fn compare_seat(seat: &QuestionState, plain: &PlainSeat) -> Result<(), Fail> {
    same(seat.units == plain.units, "units")?;
    same(seat.lent == plain.lent, "what is lent of a question")?;
    same(is_same_example(seat, plain), "the example")?;
    same(has_same_nodes(seat, plain)?, "nodes")
}

fn has_same_nodes(seat: &QuestionState, plain: &PlainSeat) -> Result<bool, Fail> {
    let nodes = seat.tree.nodes()?;
    let others = plain.tree.nodes()?;
    Ok(nodes.as_slice() == others.as_slice())
}

fn is_same_example(seat: &QuestionState, plain: &PlainSeat) -> bool {
    match (&seat.example, &plain.example) {
        (None, None) => true,
        (Some(example), Some(finish)) => example.finish.as_season().equals(finish),
        (Some(_), None) | (None, Some(_)) => false,
    }
}

/// Counts how far each question is.
pub fn see_answers(pair: &mut Pair) {
    for place in 0..pair.plain.seats.len() {
        see_answer(pair, place);
    }
}

fn see_answer(pair: &mut Pair, place: usize) {
    if place < pair.plain.seats.len() {
        let answer = pair.plain.seats[place].answer(pair.plain.budget);
        pair.seen.answer(answer);
    }
}
