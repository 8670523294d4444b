//! The pool of a session, and the answer of an ask.

ghost use Rattle.std.specs.Prelude.{◌≡◌, ◌≤◌, List, [], All, IfOk, None, Option, length};
ghost use Rattle.league_core.specs.game.Questions.{IsQuestionOf};
ghost use Rattle.league_core.specs.game.Sheets.{IsWithinLimits};
ghost use Rattle.verdict_run.specs.inside.Working.{AreSettled};
ghost use Rattle.answer_rows.specs.inside.Outputs.{CountsPut};
ghost use Rattle.league_core.specs.search.Trees.{Tree};
ghost use Rattle.command_words.specs.declared.command.Mode.TheVariants.{Table, Scores, WhatIf};
ghost use Rattle.command_words.specs.declared.command.Mode.TheVariants.{Decide, Resume};
ghost use Rattle.session_turns.specs.inside.Halts.{IsAskable};
ghost use Rattle.session_turns.specs.inside.Progress.{KeepsSaved};
ghost use Rattle.session_turns.specs.inside.Turns.{AnswersAsk, IsLive, IsReportedSame, IsUnworked};
ghost use Rattle.session_turns.specs.inside.Turns.{IsWorkedOut, PutsAnswer, asked_by};

use answer_rows::{OutputStop, put_scores, put_table, put_verdicts, questions, table_rows};
use branch_pool::Pool;
use command_words::Mode;
use decide_run::decide;
use league_core::{OutOfMemory, Question, Sheet};
use port_core::Sink;
use qual_scores::all_scores;
use std::alloc::Global;
use verdict_run::{finish, verdicts};
use what_if::put_when;

/// The pool of a session whose sheet is whole, before the first event.
pub fn begin_pool(alloc: Global, mode: Mode, sheet: Sheet) -> Result<Pool, OutOfMemory>
    requires { IsWithinLimits sheet }
    ensures live { IfOk result (IsLive mode) }
    ensures sheet { IfOk result (λ pool. pool.sheet ≡ sheet) }
    ensures log { IfOk result (λ pool. pool.log ≡ []) }
    ensures unworked { IfOk result IsUnworked }
{
    let asked = questions_for(alloc, mode, &sheet)?;
    Pool::begin(alloc, sheet, asked)
}

fn questions_for(alloc: Global, mode: Mode, sheet: &Sheet) -> Result<Vec<Question>, OutOfMemory>
    requires { IsWithinLimits sheet.now }
    ensures value { IfOk result (λ asked. asked.items ≡ asked_by mode sheet.now) }
    ensures of_sheet { IfOk result (λ asked. All (IsQuestionOf sheet.now) asked.items) }
    ensures few { IfOk result (λ asked. length asked.items ≤ 192) }
{
    match mode {
        Mode::Verdicts { .. } | Mode::Save | Mode::Resume { .. } => questions(alloc, sheet),
        Mode::Table
        | Mode::Scores
        | Mode::WhatIf
        | Mode::Decide { .. }
        | Mode::Check { .. }
        | Mode::Groups { .. }
        | Mode::GroupsCheck
        | Mode::Sample { .. } => Ok(Vec::new(alloc)),
    }
}

/// Writes the answer of an ask, about a fixture if it is about one, and gives back the pool, which
/// may know more then.
pub fn put_answer<K: Sink>(
    alloc: Global,
    mode: Mode,
    pool: Pool,
    about: Option<u16>,
    sink: &mut K,
) -> Result<Pool, OutputStop>
    requires live { IsLive mode pool }
    requires askable { IsAskable pool about }
    // Whatever trees were saved of which the pool keeps what is known.
    ensures answer { (saved : Option (List (Option Tree))) → KeepsSaved saved pool
        → AnswersAsk mode pool about saved (K.holds sink.old) (K.holds sink.new) result }
    ensures live { IfOk result (IsLive mode) }
    ensures counts { CountsPut (K.faults sink.old) (K.faults sink.new) result }
{
    let Ok(pool) = work_out(alloc, mode, pool) else {
        return Err(OutputStop::OutOfMemory);
    };
    match put_worked(alloc, mode, &pool, about, sink) {
        Ok(()) => Ok(pool),
        Err(stop) => Err(stop),
    }
}

// What is open is worked on before verdicts, as far as the budget goes.
fn work_out(alloc: Global, mode: Mode, pool: Pool) -> Result<Pool, OutOfMemory>
    requires { IsLive mode pool }
    ensures same { IfOk result (IsReportedSame pool) }
    ensures live { IfOk result (IsLive mode) }
    ensures worked { IfOk result (IsWorkedOut mode) }
    ensures kept { IfOk result (λ next. (saved : Option (List (Option Tree)))
        → KeepsSaved saved pool → KeepsSaved saved next) }
{
    match mode {
        Mode::Verdicts { .. } | Mode::Resume { .. } => finish(alloc, pool),
        Mode::Table
        | Mode::Scores
        | Mode::WhatIf
        | Mode::Save
        | Mode::Decide { .. }
        | Mode::Check { .. }
        | Mode::Groups { .. }
        | Mode::GroupsCheck
        | Mode::Sample { .. } => Ok(pool),
    }
}

fn put_worked<K: Sink>(
    alloc: Global,
    mode: Mode,
    pool: &Pool,
    about: Option<u16>,
    sink: &mut K,
) -> Result<(), OutputStop>
    requires live { IsLive mode pool.now }
    requires worked { IsWorkedOut mode pool.now }
    requires askable { IsAskable pool.now about }
    ensures answer { (saved : Option (List (Option Tree))) → KeepsSaved saved pool.now
        → PutsAnswer mode pool.now about saved (K.holds sink.old) (K.holds sink.new) result }
    ensures counts { CountsPut (K.faults sink.old) (K.faults sink.new) result }
{
    match mode {
        Mode::Verdicts { proofs } | Mode::Resume { proofs } => {
            put_found(alloc, proofs, pool, sink)
        }
        Mode::Table => put_order(alloc, pool, sink),
        Mode::Scores => put_numbers(alloc, pool, sink),
        Mode::WhatIf => put_outcomes(alloc, pool, about, sink),
        Mode::Decide { proofs } => put_decisions(alloc, proofs, pool, sink),
        Mode::Save
        | Mode::Check { .. }
        | Mode::Groups { .. }
        | Mode::GroupsCheck
        | Mode::Sample { .. } => Ok(()),
    }
}

fn put_found<K: Sink>(
    alloc: Global,
    proofs: bool,
    pool: &Pool,
    sink: &mut K,
) -> Result<(), OutputStop>
    requires live { IsLive (Resume proofs) pool.now }
    requires settled { AreSettled pool.now }
    ensures answer { (saved : Option (List (Option Tree))) → KeepsSaved saved pool.now
        → PutsAnswer (Resume proofs) pool.now None saved (K.holds sink.old) (K.holds sink.new)
        result }
    ensures counts { CountsPut (K.faults sink.old) (K.faults sink.new) result }
{
    pool.recall_invariant();
    let Ok(found) = verdicts(alloc, pool) else {
        return Err(OutputStop::OutOfMemory);
    };
    put_verdicts(
        alloc,
        proofs,
        pool.sheet(),
        pool.epoch(),
        found.as_slice(),
        sink,
    )
}

fn put_order<K: Sink>(alloc: Global, pool: &Pool, sink: &mut K) -> Result<(), OutputStop>
    requires { IsLive Table pool.now }
    ensures answer { (saved : Option (List (Option Tree)))
        → PutsAnswer Table pool.now None saved (K.holds sink.old) (K.holds sink.new) result }
    ensures counts { CountsPut (K.faults sink.old) (K.faults sink.new) result }
{
    let Ok(rows) = table_rows(alloc, pool.sheet(), pool.season()) else {
        return Err(OutputStop::OutOfMemory);
    };
    put_table(alloc, pool.epoch(), pool.sheet(), rows.as_slice(), sink)
}

fn put_numbers<K: Sink>(alloc: Global, pool: &Pool, sink: &mut K) -> Result<(), OutputStop>
    requires { IsLive Scores pool.now }
    ensures answer { (saved : Option (List (Option Tree)))
        → PutsAnswer Scores pool.now None saved (K.holds sink.old) (K.holds sink.new) result }
    ensures counts { CountsPut (K.faults sink.old) (K.faults sink.new) result }
{
    let Ok(found) = all_scores(alloc, pool.sheet(), pool.season()) else {
        return Err(OutputStop::OutOfMemory);
    };
    put_scores(alloc, pool.epoch(), pool.sheet(), found.as_slice(), sink)
}

fn put_decisions<K: Sink>(
    alloc: Global,
    proofs: bool,
    pool: &Pool,
    sink: &mut K,
) -> Result<(), OutputStop>
    requires { IsLive (Decide proofs) pool.now }
    ensures answer { (saved : Option (List (Option Tree)))
        → PutsAnswer (Decide proofs) pool.now None saved (K.holds sink.old) (K.holds sink.new)
        result }
    ensures counts { CountsPut (K.faults sink.old) (K.faults sink.new) result }
{
    let Ok(all) = decide(alloc, pool.sheet(), pool.season()) else {
        return Err(OutputStop::OutOfMemory);
    };
    put_verdicts(
        alloc,
        proofs,
        pool.sheet(),
        pool.epoch(),
        all.as_slice(),
        sink,
    )
}

// A match that is asked about has its outcomes written; an ask about none has nothing.
fn put_outcomes<K: Sink>(
    alloc: Global,
    pool: &Pool,
    about: Option<u16>,
    sink: &mut K,
) -> Result<(), OutputStop>
    requires live { IsLive WhatIf pool.now }
    requires askable { IsAskable pool.now about }
    ensures answer { (saved : Option (List (Option Tree)))
        → PutsAnswer WhatIf pool.now about saved (K.holds sink.old) (K.holds sink.new) result }
    ensures counts { CountsPut (K.faults sink.old) (K.faults sink.new) result }
{
    match about {
        Some(fixture) => {
            let (sheet, season) = (pool.sheet(), pool.season());
            put_when(alloc, sheet, season, pool.epoch(), fixture, sink)
        }
        None => Ok(()),
    }
}
