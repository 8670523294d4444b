//! One worker settles a round of sixteen clubs, and a round without events keeps what it found.

ghost use Rattle.std.specs.Prelude.{◌≡◌, IfOk};
ghost use Rattle.league_core.specs.game.Sheets.{IsWithinLimits};
ghost use Rattle.branch_pool.specs.inside.States.{out_count};

use crate::gates::{set, watch};
use crate::runs::source_of;
use answer_rows::questions;
use branch_pool::{Answer, Pool};
use league_core::{OutOfMemory, Sheet};
use plain_rounds::RoundEnd;
use port_core::{LineReader, MemSource};
use sample_leagues::sample_of;
use std::alloc::Global;
use std::process::Abort;
use std::sync::Wait;
use std::sync::atomic::AtomicU64;
use std::test::Fail;
use std::thread::{Threads, join};
use std::time::Clock;
use worker_gate::{OpenGate, run_round};

/// Sixteen clubs before an open round, and two matches between the first two.
pub const SIXTEEN: &[u8] = b"league,Sixteen,20\nclub,K01,1\nclub,K02,2\nclub,K03,3\nclub,K04,4\n\
    club,K05,5\nclub,K06,6\nclub,K07,7\nclub,K08,8\nclub,K09,9\nclub,K10,10\nclub,K11,11\n\
    club,K12,12\nclub,K13,13\nclub,K14,14\nclub,K15,15\nclub,K16,16\nmatch,K01,K02\n\
    match,K01,K02\nmatch,K01,K02\nmatch,K03,K04\nmatch,K05,K06\nmatch,K07,K08\nmatch,K09,K10\n\
    match,K11,K12\nmatch,K13,K14\nmatch,K15,K16\nline,1\nseason\n";

/// K01 wins both, so that it has six points, and no other club can have more than three.
pub const TWICE_WON: &[u8] = b"result,1,1,0\nresult,2,1,0\nask\n";

// A feed, and who reads it.
#[derive(Drop)]
struct Feed {
    reader: LineReader,
    source: MemSource,
}

fn feed_of(alloc: Global, text: &[u8]) -> Result<Feed, Fail> {
    let reader = LineReader::new(alloc)?;
    let source = source_of(alloc, text)?;
    Ok(Feed { reader, source })
}

// A pool of the sixteen, of which nothing is out.
fn begun(alloc: Global, sheet: &Sheet) -> Result<Pool, OutOfMemory>
    requires limits { IsWithinLimits sheet.now }
    ensures of_sheet { IfOk result (λ pool. sheet.now ≡ pool.sheet) }
    ensures home { IfOk result (λ pool. out_count pool.loans ≡ 0) }
{
    let asked = questions(alloc, sheet)?;
    Pool::begin(alloc, sheet.copy(alloc)?, asked)
}

// The pool after a round with one worker that reads this feed to its ask.
fn asked<R: Threads + Wait + Sync>(
    rt: &R,
    alloc: Global,
    sheet: &Sheet,
    pool: Pool,
    feed: &mut Feed,
) -> Result<Pool, Fail>
    requires of_pool { sheet.now ≡ pool.sheet }
    requires home { out_count pool.loans ≡ 0 }
    ensures of_pool { IfOk result (λ new. sheet.now ≡ new.sheet) }
    ensures home { IfOk result (λ new. out_count new.loans ≡ 0) }
{
    let round = run_round(
        rt,
        alloc,
        sheet,
        pool,
        &mut feed.reader,
        &mut feed.source,
        1,
        &OpenGate,
    )?;
    if round.end == RoundEnd::Ask {
        Ok(round.pool)
    } else {
        Err("the feed does not end with an ask".into())
    }
}

// What a question comes to, the one about being inside before the one about being outside of each
// club: K01 is the first in every finish, and no other club is.
fn known_of(place: u16) -> Answer {
    let is_first = place < 2;
    let is_inside = place % 2 == 0;
    if is_first == is_inside {
        Answer::Won
    } else {
        Answer::Refuted
    }
}

// How many of the 32 questions are not yet answered.
fn count_open(pool: &Pool) -> u16 {
    let mut count = 0u16;
    if pool.questions().len() != 32 {
        return count;
    }
    for place in 0..32u16 {
        if pool.answer(place) == Answer::NotYet {
            count = count.saturating_add(1);
        }
    }
    count
}

// Whether each question has the answer that it comes to.
fn is_settled(pool: &Pool) -> bool {
    if pool.questions().len() != 32 {
        return false;
    }
    let mut settled = true;
    for place in 0..32u16 {
        settled = settled && pool.answer(place) == known_of(place);
    }
    settled
}

// Whether the pool is settled after a round.
fn is_settled_after<R: Threads + Wait + Sync>(
    rt: &R,
    alloc: Global,
    sheet: &Sheet,
    pool: Pool,
    feed: &mut Feed,
) -> Result<bool, Fail>
    requires of_pool { sheet.now ≡ pool.sheet }
    requires home { out_count pool.loans ≡ 0 }
{
    let pool = asked(rt, alloc, sheet, pool, feed)?;
    Ok(is_settled(&pool))
}

// Whether it is settled after the first and after the second of two rounds.
fn is_settled_twice<R: Threads + Wait + Sync>(
    rt: &R,
    alloc: Global,
    sheet: &Sheet,
    pool: Pool,
    first: &mut Feed,
    second: &mut Feed,
) -> Result<(bool, bool), Fail>
    requires of_pool { sheet.now ≡ pool.sheet }
    requires home { out_count pool.loans ≡ 0 }
{
    let pool = asked(rt, alloc, sheet, pool, first)?;
    let is_first = is_settled(&pool);
    let is_second = is_settled_after(rt, alloc, sheet, pool, second)?;
    Ok((is_first, is_second))
}

// How many questions of the sixteen are not yet answered at first, and whether all are settled
// after each of two rounds.
type Settled = (u16, (bool, bool));

fn two_rounds<R: Threads + Wait + Sync>(
    rt: &R,
    alloc: Global,
    sheet: &Sheet,
    first: &mut Feed,
    second: &mut Feed,
) -> Result<Settled, Fail>
    requires limits { IsWithinLimits sheet.now }
{
    let pool = begun(alloc, sheet)?;
    let open = count_open(&pool);
    let is_settled = is_settled_twice(rt, alloc, sheet, pool, first, second)?;
    Ok((open, is_settled))
}

fn two_rounds_of_sixteen<R: Threads + Wait + Sync>(
    rt: &R,
    alloc: Global,
    first: &mut Feed,
    second: &mut Feed,
) -> Result<Settled, Fail> {
    let sample = sample_of(alloc, SIXTEEN).ok_or("no league")?;
    two_rounds(rt, alloc, &sample.sheet, first, second)
}

// The first feed is given, and the second has no events.
fn two_rounds_from<R: Threads + Wait + Sync>(
    rt: &R,
    alloc: Global,
    first: &mut Feed,
) -> Result<Settled, Fail> {
    let mut second = feed_of(alloc, b"ask\n")?;
    two_rounds_of_sixteen(rt, alloc, first, &mut second)
}

// K01 wins twice in the first of them.
fn two_rounds_read<R: Threads + Wait + Sync>(rt: &R, alloc: Global) -> Result<Settled, Fail> {
    let mut first = feed_of(alloc, TWICE_WON)?;
    two_rounds_from(rt, alloc, &mut first)
}

// The same, which fails the test if it does not end.
fn two_rounds_watched<R: Threads + Wait + Clock + Abort + Sync + Alloc<A = Global>>(
    rt: &R,
) -> Result<Settled, Fail> {
    let ended = AtomicU64::new(0);
    let (_, settled) = join(
        rt,
        || watch(rt, &ended),
        || {
            let settled = two_rounds_read(rt, rt.alloc());
            set(&ended);
            settled
        },
    );
    settled
}

#[test]
fn one_worker_settles_the_round(rt: HostRuntime) -> Result<(), Fail> {
    let (open, is_settled) = two_rounds_watched(&rt)?;
    assert_eq!(rt; open, 32);
    assert_eq!(rt; is_settled, (true, true));
    Ok(())
}
