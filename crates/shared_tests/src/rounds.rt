//! A pool inside its lock, by hand: two clubs and one match. If A wins it, A is first, and the
//! questions are, in order: whether A can end inside the line (an example shows it), outside
//! (refuted), and the same of B.

ghost use Rattle.std.specs.Prelude.{◌≡◌, ◌≤◌, [], All, IfOk, IsTrue, length};
ghost use Rattle.league_core.specs.inside.Codes.{has_code};
ghost use Rattle.league_core.specs.game.Limits.{most_events};
ghost use Rattle.league_core.specs.game.Questions.{IsQuestionOf};
ghost use Rattle.league_core.specs.game.Seasons.{IsEventOf, season_after};
ghost use Rattle.league_core.specs.game.Sheets.{IsWithinLimits};
ghost use Rattle.branch_pool.specs.inside.States.{out_count};
ghost use Rattle.epoch_cancel.specs.inside.Seats.{seat_of};
ghost use Rattle.pool_lock.specs.inside.Lends.{IsEyeAfter};

use crate::cases::{Case, event_of, meet};
use crate::end::{Round, seen};
use crate::watched::watched;
use answer_rows::questions;
use branch_pool::{Answer, Gave, Pool};
use epoch_cancel::{EpochWord, Eye, Front, Owner};
use league_core::{Event, OutOfMemory, Question, Season, Sheet};
use pool_lock::{Job, PoolLock};
use sample_leagues::sample_of;
use std::alloc::Global;
use std::marker::Brand;
use std::sync::Wait;
use std::sync::ledger::Blank;
use std::test::Fail;
use std::thread::Threads;

const TWO_CLUBS: &[u8] = b"league,Tiny,1\nclub,A,1\nclub,B,2\nmatch,A,B\nline,1\nseason\n";

const BOTH_KEPT: Option<(Gave, Gave)> = Some((Gave::Kept, Gave::Kept));

/// The word of a pool, with the seats of its lock.
#[derive(Drop)]
pub struct Seated {
    pub word: EpochWord,
    pub owner: Owner,
    pub front: Front,
    pub eyes: Vec<Eye>,
}

/// A round of two clubs in which the workers play a case.
pub fn see_round<R: Threads + Wait + Sync>(
    rt: &R,
    alloc: Global,
    case: Case,
) -> Result<Round, Fail> {
    let sample = sample_of(alloc, TWO_CLUBS).ok_or("no league")?;
    round_of(rt, alloc, &sample.sheet, case)
}

// The same on the sheet.
fn round_of<R: Threads + Wait + Sync>(
    rt: &R,
    alloc: Global,
    sheet: &Sheet,
    case: Case,
) -> Result<Round, Fail>
    requires limits { IsWithinLimits sheet.now }
{
    let event = event_of(case);
    let seated = take_seats(alloc, &[], 2)?;
    let pool = pool_to_tell(alloc, sheet, case, &event)?;
    round_as::<Brand, R>(rt, alloc, sheet, Blank::new(1), seated, pool, event, case)
}

/// A word after these events, with its seats and so many workers' eyes.
pub fn take_seats(alloc: Global, log: &[Event], workers: u8) -> Result<Seated, Fail>
    requires few { length log.now ≤ most_events }
    requires codes { All (λ event. IsTrue (has_code event)) log.now }
    ensures owner { IfOk result (λ made. made.owner ≡ seat_of made.word log.now) }
    ensures front { IfOk result (λ made. made.front ≡ seat_of made.word log.now) }
    ensures eyes { IfOk result (λ made. All (IsEyeAfter made.word log.now) made.eyes.items) }
{
    let (word, owner, front, eyes) = EpochWord::new(alloc, log, workers)?;
    Ok(Seated {
        word,
        owner,
        front,
        eyes,
    })
}

// A pool that may take the event.
fn pool_to_tell(alloc: Global, sheet: &Sheet, case: Case, event: &Event) -> Result<Pool, Fail>
    requires limits { IsWithinLimits sheet.now }
    ensures of_sheet { IfOk result (λ pool. pool.sheet ≡ sheet.now) }
    ensures log { IfOk result (λ pool. pool.log ≡ []) }
    ensures home { IfOk result (λ pool. out_count pool.loans ≡ 0) }
    ensures may_be { IfOk result (λ pool. IsEventOf (season_after sheet.now []) event.now) }
{
    let pool = pool_of(alloc, sheet, case)?;
    if may_be_told(&pool, event) {
        Ok(pool)
    } else {
        Err("no event of the season".into())
    }
}

/// A pool of what is asked in a case.
pub fn pool_of(alloc: Global, sheet: &Sheet, case: Case) -> Result<Pool, OutOfMemory>
    requires limits { IsWithinLimits sheet.now }
    ensures of_sheet { IfOk result (λ pool. pool.sheet ≡ sheet.now) }
    ensures log { IfOk result (λ pool. pool.log ≡ []) }
    ensures home { IfOk result (λ pool. out_count pool.loans ≡ 0) }
{
    let asked = asked_in(alloc, sheet, case)?;
    Pool::begin(alloc, sheet.copy(alloc)?, asked)
}

// What is asked in a case: nothing if the feed is only shut.
fn asked_in(alloc: Global, sheet: &Sheet, case: Case) -> Result<Vec<Question>, OutOfMemory>
    requires limits { IsWithinLimits sheet.now }
    ensures of_sheet { IfOk result (λ asked. All (IsQuestionOf sheet.now) asked.items) }
    ensures few { IfOk result (λ asked. length asked.items ≤ 192) }
{
    match case {
        Case::Shut | Case::Woken => Ok(Vec::new(alloc)),
        _ => questions(alloc, sheet),
    }
}

// The two workers and the one who reports meet at the lock, and then the feed is shut.
fn round_as<J: Job + Send + Sync, R: Threads + Wait + Sync>(
    rt: &R,
    alloc: Global,
    sheet: &Sheet,
    blank: Blank,
    seated: Seated,
    pool: Pool,
    event: Event,
    case: Case,
) -> Result<Round, Fail>
    requires ledger { blank.name ≡ J.name }
    requires parts { blank.parts ≡ J.parts }
    requires one_part { blank.parts ≡ 1 }
    requires word { seated.word ≡ J.table }
    requires owner { seated.owner ≡ seat_of seated.word pool.log }
    requires front { seated.front ≡ seat_of seated.word pool.log }
    requires eyes { All (IsEyeAfter seated.word pool.log) seated.eyes.items }
    requires of_job { sheet.now ≡ J.sheet }
    requires limits { IsWithinLimits sheet.now }
    requires sheet { pool.sheet ≡ J.sheet }
    requires questions { pool.questions ≡ J.questions }
    requires home { out_count pool.loans ≡ 0 }
    requires may_be { IsEventOf (season_after J.sheet pool.log) event }
{
    let Seated {
        word,
        owner,
        front,
        eyes,
    } = seated;
    let (lock, mut front, mut badges) = PoolLock::<J>::new(
        alloc, blank, word, owner, front, eyes, pool,
    )?;
    let gave = meet(
        rt,
        alloc,
        sheet,
        &lock,
        &mut front,
        badges.as_mut_slice(),
        event,
        case,
    );
    lock.shut(rt, &mut front);
    let pool = lock.close(front);
    seen(&pool, gave, event)
}

/// Whether the pool may take the event.
pub fn may_be_told(pool: &Pool, event: &Event) -> bool
    ensures { IsTrue result → IsEventOf (season_after pool.now.sheet pool.now.log) event.now }
{
    let _log = pool.log();
    may_be(pool.season(), event)
}

// Whether the season may take the event.
fn may_be(season: &Season, event: &Event) -> bool
    ensures { IsTrue result → IsEventOf season.now event.now }
{
    match event {
        Event::Set { fixture, score } => {
            (*fixture as usize) < season.scores().len() && score.home <= 99 && score.away <= 99
        }
        Event::Clear { fixture: _ } | Event::Deduct { club: _, points: _ } => false,
    }
}

#[test]
fn what_is_found_comes_to_the_pool(rt: HostRuntime) -> Result<(), Fail> {
    let round = watched(&rt, Case::Worked)?;
    assert_eq!(rt;
        (round.gave, round.first_two, round.is_told),
        (BOTH_KEPT, Some((Answer::Won, Answer::Refuted)), true)
    );
    Ok(())
}

#[test]
fn what_is_found_comes_with_the_next_loan(rt: HostRuntime) -> Result<(), Fail> {
    let round = watched(&rt, Case::InTurn)?;
    assert_eq!(rt;
        (round.gave, round.first_two),
        (BOTH_KEPT, Some((Answer::Won, Answer::Refuted)))
    );
    Ok(())
}

#[test]
fn what_is_of_another_piece_counts_as_nothing(rt: HostRuntime) -> Result<(), Fail> {
    let round = watched(&rt, Case::OtherPiece)?;
    assert_eq!(rt;
        (round.gave, round.first_two, round.out),
        (BOTH_KEPT, Some((Answer::NotYet, Answer::NotYet)), 0)
    );
    Ok(())
}

#[test]
fn what_is_out_at_the_end_comes_home(rt: HostRuntime) -> Result<(), Fail> {
    let round = watched(&rt, Case::Lost)?;
    assert_eq!(rt;
        (round.gave, round.first_two, round.out),
        (None, Some((Answer::NotYet, Answer::NotYet)), 0)
    );
    Ok(())
}

#[test]
fn what_is_out_when_a_result_comes_is_stale(rt: HostRuntime) -> Result<(), Fail> {
    let round = watched(&rt, Case::Overtaken)?;
    let stale = Gave::Stale { epoch: 1 };
    assert_eq!(rt;
        (round.gave, round.out, round.are_open),
        (Some((stale, stale)), 0, true)
    );
    Ok(())
}

#[test]
fn lend_returns_over_after_shut(rt: HostRuntime) -> Result<(), Fail> {
    let round = watched(&rt, Case::Shut)?;
    assert_eq!(rt; (round.gave, round.logged), (None, 0));
    Ok(())
}

#[test]
fn lend_that_waits_is_woken_by_shut(rt: HostRuntime) -> Result<(), Fail> {
    let round = watched(&rt, Case::Woken)?;
    assert_eq!(rt; (round.gave, round.logged), (None, 0));
    Ok(())
}
