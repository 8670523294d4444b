//! Drawn lists of steps, each made by a pool and by a plain one.

ghost use Rattle.league_core.specs.game.Sheets.{IsWithinLimits};

use crate::decided::{drawn_result, split_fixtures};
use crate::held::Held;
use crate::pairs::{Pair, change, compare, give, open, pair_of, recall, see_answers, take};
use crate::seen::{Seen, none_seen};
use league_core::{Event, Score, Season, Sheet};
use sample_leagues::{Draws, sample_of};
use std::alloc::Global;
use std::test::Fail;

/// Four clubs that all meet once and one that meets nobody, with few units.
const FEW_UNITS: &[u8] = b"league,Few,1,3\nclub,A,1\nclub,B,2\nclub,C,3\nclub,D,4\nclub,E,5
match,A,B\nmatch,C,D\nmatch,C,A\nmatch,B,D\nmatch,A,D\nmatch,B,C\nline,1\nline,2\nseason\n";

/// Three clubs that meet twice and one that meets nobody, with more units, and the other order of
/// criteria.
const MORE_UNITS: &[u8] = b"league,More,1,6,overall_first\nclub,A,1\nclub,B,1\nclub,C,2\nclub,D,2
match,A,B\nmatch,B,C\nmatch,C,A\nmatch,B,A\nmatch,C,B\nmatch,A,C\nline,1\nline,2\nseason\n";

/// Two clubs that meet six times.
const TWO_CLUBS: &[u8] = b"league,Two,1,12\nclub,A,1\nclub,B,2\nmatch,A,B\nmatch,B,A\nmatch,A,B
match,B,A\nmatch,A,B\nmatch,B,A\nline,1\nseason\n";

/// What the lists of a test have in common.
#[derive(Drop)]
struct Lists {
    text: &'static [u8],
    count: u32,
    /// The points that the questions ask for.
    window: (i32, i32),
    /// How many pieces a pool has worked on before the first event.
    worked: u32,
}

const FULL_WINDOW: (i32, i32) = (-99, 1800);

fn below(draws: &mut Draws, count: usize) -> u8 {
    if count == 0 {
        return 0;
    }
    draws.below(count.min(255) as u8)
}

// A result or a correction, which may pass the goal limit; a score taken away; a deduction.
fn drawn_event(draws: &mut Draws, season: &Season) -> Event {
    let fixture = u16::from(below(draws, season.scores().len()));
    match draws.below(8) {
        0 => Event::Clear { fixture },
        1 => Event::Deduct {
            club: below(draws, season.deductions().len()),
            points: draws.below(4),
        },
        _ => Event::Set {
            fixture,
            score: Score {
                home: draws.below(3),
                away: draws.below(3),
            },
        },
    }
}

// One of the tickets; it stays to be given back once more if that is drawn.
fn give_one(
    alloc: Global,
    draws: &mut Draws,
    pair: &mut Pair,
    held: &mut Vec<Held>,
) -> Result<(), Fail> {
    let place = below(draws, held.len()) as usize;
    if place >= held.len() {
        return Ok(());
    }
    let is_worked = draws.below(5) > 0;
    give(alloc, pair, &held[place], is_worked)?;
    if draws.below(8) > 0 {
        let _spent = held.swap_remove(place);
    }
    Ok(())
}

fn take_one(alloc: Global, pair: &mut Pair, held: &mut Vec<Held>) -> Result<(), Fail> {
    if let Some(one) = take(alloc, pair)? {
        held.push(one).map_err(|_| "no memory")?;
    }
    Ok(())
}

// One step of one of the pools. Tickets of both lie in one list, so that some are given to a pool
// that is not theirs.
fn step(
    alloc: Global,
    draws: &mut Draws,
    pair: &mut Pair,
    held: &mut Vec<Held>,
) -> Result<(), Fail> {
    match draws.below(60) {
        0..7 => turn(alloc, draws, pair)?,
        7..34 => take_one(alloc, pair, held)?,
        _ => give_one(alloc, draws, pair, held)?,
    }
    compare(pair)
}

// A step that neither takes nor gives.
fn turn(alloc: Global, draws: &mut Draws, pair: &mut Pair) -> Result<(), Fail> {
    match draws.below(7) {
        0 => {
            recall(pair);
            Ok(())
        }
        1 | 2 => {
            open(pair, false);
            Ok(())
        }
        3 | 4 => {
            open(pair, true);
            Ok(())
        }
        _ => change_drawn(alloc, draws, pair),
    }
}

// Mostly a result of a fixture by which some tree is split, if there is one.
fn change_drawn(alloc: Global, draws: &mut Draws, pair: &mut Pair) -> Result<(), Fail> {
    if draws.below(4) > 0 {
        let split = split_fixtures(alloc, &pair.plain)?;
        if let Some(event) = drawn_result(draws, split.as_slice()) {
            return change(alloc, pair, event);
        }
    }
    let event = drawn_event(draws, pair.pool.season());
    change(alloc, pair, event)
}

// A result of a fixture by which some tree is split.
fn decide(alloc: Global, draws: &mut Draws, pair: &mut Pair) -> Result<(), Fail> {
    let split = split_fixtures(alloc, &pair.plain)?;
    let event = drawn_result(draws, split.as_slice()).ok_or("no split by a score")?;
    change(alloc, pair, event)?;
    compare(pair)
}

fn work_one(alloc: Global, pair: &mut Pair) -> Result<(), Fail> {
    if let Some(held) = take(alloc, pair)? {
        give(alloc, pair, &held, true)?;
    }
    Ok(())
}

// Works on as many pieces as is drawn for the lists, and decides a split then.
fn work_first(
    alloc: Global,
    draws: &mut Draws,
    lists: &Lists,
    pair: &mut Pair,
) -> Result<(), Fail> {
    if lists.worked == 0 {
        return Ok(());
    }
    for _ in 0..lists.worked {
        work_one(alloc, pair)?;
    }
    decide(alloc, draws, pair)
}

fn change_some(alloc: Global, draws: &mut Draws, pair: &mut Pair) -> Result<(), Fail> {
    for _ in 0..draws.below(7) {
        change_drawn(alloc, draws, pair)?;
    }
    Ok(())
}

fn begin(alloc: Global, draws: &mut Draws, lists: &Lists, pair: &mut Pair) -> Result<(), Fail> {
    work_first(alloc, draws, lists, pair)?;
    change_some(alloc, draws, pair)
}

// A pool that has taken up to six events; if it has worked before, one more, which decides a split.
fn begun(alloc: Global, draws: &mut Draws, sheet: &Sheet, lists: &Lists) -> Result<Pair, Fail>
    requires { IsWithinLimits sheet.now }
{
    let mut pair = pair_of(alloc, sheet, lists.window)?;
    begin(alloc, draws, lists, &mut pair)?;
    Ok(pair)
}

// No event will come: what is taken is worked on and given back.
fn finish(alloc: Global, pair: &mut Pair) -> Result<(), Fail> {
    open(pair, false);
    for _ in 0..60 {
        work_one(alloc, pair)?;
    }
    compare(pair)
}

// Two pools, and the tickets of both that may be given back.
#[derive(Drop)]
struct Pools {
    one: Pair,
    other: Pair,
    held: Vec<Held>,
}

fn step_of_one(alloc: Global, draws: &mut Draws, pools: &mut Pools) -> Result<(), Fail> {
    if draws.below(4) == 0 {
        step(alloc, draws, &mut pools.other, &mut pools.held)
    } else {
        step(alloc, draws, &mut pools.one, &mut pools.held)
    }
}

fn steps(alloc: Global, draws: &mut Draws, pools: &mut Pools) -> Result<(), Fail> {
    for _ in 0..100 {
        step_of_one(alloc, draws, pools)?;
    }
    Ok(())
}

fn seen_by(alloc: Global, draws: &mut Draws, pools: &mut Pools) -> Result<Seen, Fail> {
    steps(alloc, draws, pools)?;
    finish(alloc, &mut pools.one)?;
    see_answers(&mut pools.one);
    let mut seen = pools.one.seen;
    seen.add(pools.other.seen);
    Ok(seen)
}

// A hundred steps of two pools of a league from their beginning, and the end of one of them.
fn run(alloc: Global, draws: &mut Draws, sheet: &Sheet, lists: &Lists) -> Result<Seen, Fail>
    requires { IsWithinLimits sheet.now }
{
    let one = begun(alloc, draws, sheet, lists)?;
    let other = begun(alloc, draws, sheet, lists)?;
    let held = Vec::new(alloc);
    let mut pools = Pools { one, other, held };
    seen_by(alloc, draws, &mut pools)
}

fn run_lists(alloc: Global, seed: u32, lists: &Lists) -> Result<Seen, Fail> {
    let sample = sample_of(alloc, lists.text).ok_or("no league")?;
    let mut draws = Draws::new(seed);
    let mut seen = none_seen();
    for _ in 0..lists.count {
        seen.add(run(alloc, &mut draws, &sample.sheet, lists)?);
    }
    Ok(seen)
}

#[test]
fn drawn_steps_with_few_units(rt: HostRuntime) -> Result<(), Fail> {
    let lists = Lists {
        text: FEW_UNITS,
        count: 350,
        window: FULL_WINDOW,
        worked: 0,
    };
    let seen = run_lists(rt.alloc(), 21, &lists)?;
    assert!(rt; seen.has_each(20), "{seen:?}");
    Ok(())
}

#[test]
fn drawn_steps_with_more_units(rt: HostRuntime) -> Result<(), Fail> {
    let lists = Lists {
        text: MORE_UNITS,
        count: 350,
        window: FULL_WINDOW,
        worked: 0,
    };
    let seen = run_lists(rt.alloc(), 22, &lists)?;
    assert!(rt; seen.has_each(20), "{seen:?}");
    Ok(())
}

// Can A be first with just 8 points of six matches? What is proposed gives it 18. It can, by a win
// and five draws, and then it is ahead of B, with 5: so no reason holds, neither at the root nor if
// B ends behind. The root is split by B, and if B ends behind, all rivals are marked, so the split
// is by a score: the first three pieces have one. So each of the two pools of a list decides a
// split at least before its steps.
#[test]
fn drawn_results_decide_splits(rt: HostRuntime) -> Result<(), Fail> {
    let lists = Lists {
        text: TWO_CLUBS,
        count: 300,
        window: (8, 8),
        worked: 9,
    };
    let seen = run_lists(rt.alloc(), 23, &lists)?;
    assert!(rt; 2 * 300 <= seen.decided, "{seen:?}");
    Ok(())
}
