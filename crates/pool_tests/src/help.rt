//! Pools of leagues, and workers that take and give.

ghost use Rattle.std.specs.Prelude.{◌≡◌, ◌≤◌, All, IfOk, IsTrue, length};
ghost use Rattle.league_core.specs.game.Questions.{IsQuestionOf};
ghost use Rattle.league_core.specs.game.Seasons.{IsEventOf};
ghost use Rattle.league_core.specs.game.Sheets.{IsWithinLimits};
ghost use Rattle.reason_core.specs.inside.Dones.{IsFor, IsTrueDone};
ghost use Rattle.branch_pool.specs.inside.States.{out_count};
ghost use Rattle.answer_rows.specs.AskedQuestions.{questions_of};

use crate::eligibility::{are_questions_of, done_of};
use answer_rows::questions;
use branch_pool::{Answer, Gave, Pool, Ticket, Took};
use league_core::{Event, OutOfMemory, Question, Season, Sheet, TreeNode};
use reason_core::Done;
use sample_leagues::sample_of;
use std::alloc::Global;
use std::test::Fail;
use verdict_run::finish;

/// The pool of a sheet and all that is asked of it, with nothing reported.
pub fn pool_of(alloc: Global, text: &[u8]) -> Result<Pool, Fail> {
    let sample = sample_of(alloc, text).ok_or("no league")?;
    pool_of_sheet(alloc, &sample.sheet)
}

/// The pool of a sheet and all that is asked of it, with nothing reported.
pub fn pool_of_sheet(alloc: Global, sheet: &Sheet) -> Result<Pool, Fail>
    requires { IsWithinLimits sheet.now }
    ensures sheet { IfOk result (λ pool. pool.sheet ≡ sheet.now) }
    ensures questions { IfOk result (λ pool. pool.questions ≡ questions_of sheet.now) }
    ensures home { IfOk result (λ pool. out_count pool.loans ≡ 0) }
{
    let asked = questions(alloc, sheet)?;
    Ok(Pool::begin(alloc, sheet.copy(alloc)?, asked)?)
}

/// The same with another window for all that is asked.
pub fn pool_in_window(alloc: Global, sheet: &Sheet, window: (i32, i32)) -> Result<Pool, Fail>
    requires { IsWithinLimits sheet.now }
{
    let asked = asked_in(alloc, sheet, window)?;
    Ok(Pool::begin(alloc, sheet.copy(alloc)?, asked)?)
}

fn asked_in(alloc: Global, sheet: &Sheet, window: (i32, i32)) -> Result<Vec<Question>, Fail>
    requires limits { IsWithinLimits sheet.now }
    ensures of_sheet { IfOk result (λ asked. All (IsQuestionOf sheet.now) asked.items) }
    ensures few { IfOk result (λ asked. length asked.items ≤ 192) }
{
    let asked = in_window(alloc, questions(alloc, sheet)?.as_slice(), window)?;
    if asked.len() <= 192 && are_questions_of(sheet, asked.as_slice()) {
        Ok(asked)
    } else {
        Err("no questions of the sheet".into())
    }
}

fn in_window(
    alloc: Global,
    asked: &[Question],
    window: (i32, i32),
) -> Result<Vec<Question>, OutOfMemory> {
    let (low, high) = window;
    let mut found = Vec::new(alloc);
    for question in asked {
        found.push(Question {
            low,
            high,
            ..*question
        })?;
    }
    Ok(found)
}

/// Whether the season may take the event.
pub fn may_be(season: &Season, event: &Event) -> bool
    ensures { IsTrue result → IsEventOf season.now event.now }
{
    match event {
        Event::Set { fixture, score } => {
            (*fixture as usize) < season.scores().len() && score.home <= 99 && score.away <= 99
        }
        Event::Clear { fixture } => (*fixture as usize) < season.scores().len(),
        Event::Deduct { club, points } => {
            (*club as usize) < season.deductions().len() && *points <= 99
        }
    }
}

/// Reports to the pool an event that its season may take, and gives the new epoch.
pub fn tell(pool: &mut Pool, event: Event) -> Result<u64, Fail>
    ensures sheet { pool.new.sheet ≡ pool.old.sheet }
    ensures questions { pool.new.questions ≡ pool.old.questions }
{
    if !may_be(pool.season(), &event) {
        return Err("no event of the season".into());
    }
    Ok(pool.change(event).map_err(|_| "not told")?)
}

/// The pool with all work done.
pub fn finished(alloc: Global, pool: Pool) -> Result<Pool, Fail>
    ensures sheet { IfOk result (λ new. new.sheet ≡ pool.sheet) }
    ensures questions { IfOk result (λ new. new.questions ≡ pool.questions) }
{
    if pool.out() > 0 {
        return Err("a number is out".into());
    }
    Ok(finish(alloc, pool)?)
}

fn taken(pool: &mut Pool) -> Result<Ticket, Fail> {
    match pool.take() {
        Took::Lent(ticket) => Ok(ticket),
        Took::Rest | Took::Over | Took::OutOfMemory => Err("no ticket".into()),
    }
}

/// Takes two tickets.
pub fn two_taken(pool: &mut Pool) -> Result<(Ticket, Ticket), Fail> {
    let one = taken(pool)?;
    match taken(pool) {
        Ok(two) => Ok((one, two)),
        Err(fail) => {
            give_undone(pool, one);
            Err(fail)
        }
    }
}

/// Whether nothing is left to take, now and later.
pub fn is_over(pool: &mut Pool) -> bool {
    match pool.take() {
        Took::Over => true,
        Took::Rest | Took::OutOfMemory => false,
        Took::Lent(ticket) => {
            give_undone(pool, ticket);
            false
        }
    }
}

/// Gives a ticket back without work.
pub fn give_undone(pool: &mut Pool, ticket: Ticket) -> Gave {
    pool.give(ticket, Done::Undone)
}

/// Takes a ticket, works on it, and gives it back with what was found.
pub fn work_next(alloc: Global, pool: &mut Pool) -> Result<Gave, Fail> {
    let ticket = taken(pool)?;
    Ok(worked(alloc, pool, ticket))
}

fn worked(alloc: Global, pool: &mut Pool, ticket: Ticket) -> Gave {
    let done = found_in(alloc, pool, &ticket);
    pool.give(ticket, done)
}

fn found_in(alloc: Global, pool: &Pool, ticket: &Ticket) -> Done
    ensures is_for { IsFor result ticket.now.piece }
    ensures sound { IsTrueDone pool.now.sheet result }
{
    match done_of(alloc, pool.sheet(), &ticket.piece) {
        Ok(done) => done,
        Err(OutOfMemory) => Done::Undone,
    }
}

/// How far the question at a place is; none if there is no question.
pub fn answer_at(pool: &Pool, place: u16) -> Option<Answer> {
    if (place as usize) < pool.questions().len() {
        Some(pool.answer(place))
    } else {
        None
    }
}

/// How many units of work the question at a place has.
pub fn units_at(pool: &Pool, place: u16) -> Option<u32> {
    if (place as usize) < pool.questions().len() {
        Some(pool.seat(place).units)
    } else {
        None
    }
}

/// The nodes of the tree of the question at a place.
pub fn nodes_at(pool: &Pool, place: u16) -> Result<Vec<TreeNode>, Fail> {
    if (place as usize) < pool.questions().len() {
        Ok(pool.tree(place).nodes()?)
    } else {
        Err("no question".into())
    }
}
