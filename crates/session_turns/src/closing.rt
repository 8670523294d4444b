//! What is written at the end of an input: in the mode `save` a saved text.

ghost use Rattle.answer_rows.specs.inside.Outputs.{CountsPut};
ghost use Rattle.command_words.specs.declared.command.Mode.TheVariants.{Save};
ghost use Rattle.run_ends.specs.inside.Stops.{CountsEnd};
ghost use Rattle.run_ends.specs.declared.run_end.RunEnd.TheVariants.{Complete};
ghost use Rattle.run_ends.specs.Texts.{IsLastText};
ghost use Rattle.run_ends.specs.inside.RunTurns.{EndGives};
ghost use Rattle.session_turns.specs.Texts.{IsSavedText};
ghost use Rattle.session_turns.specs.inside.Turns.{IsLive, PutsClosing, closing_of};

use answer_rows::OutputStop;
use branch_pool::Pool;
use command_words::Mode;
use pool_save::put_saved;
use port_core::Sink;
use run_ends::Status;
use std::alloc::Global;
use verdict_run::finish;

/// Ends a run at the end of its input.
pub fn close_session<K: Sink>(alloc: Global, mode: Mode, pool: Pool, sink: &mut K) -> Status
    requires live { IsLive mode pool }
    ensures gives { EndGives (IsLastText IsSavedText Complete (closing_of mode pool))
        (K.holds sink.old) (K.holds sink.new) result }
    ensures counts { CountsEnd (K.faults sink.old) (K.faults sink.new) result }
{
    match mode {
        Mode::Save => match put_trees(alloc, pool, sink) {
            Ok(()) => Status::Done,
            Err(OutputStop::WriteFault) => Status::WriteFault,
            Err(OutputStop::OutOfMemory) => Status::OutOfMemory,
        },
        Mode::Verdicts { .. }
        | Mode::Table
        | Mode::Scores
        | Mode::WhatIf
        | Mode::Resume { .. }
        | Mode::Decide { .. }
        | Mode::Check { .. }
        | Mode::Groups { .. }
        | Mode::GroupsCheck
        | Mode::Sample { .. } => Status::Done,
    }
}

// Works on each question, and writes what came of it.
fn put_trees<K: Sink>(alloc: Global, pool: Pool, sink: &mut K) -> Result<(), OutputStop>
    requires { IsLive Save pool }
    ensures text { PutsClosing (closing_of Save pool) (K.holds sink.old) (K.holds sink.new)
        result }
    ensures counts { CountsPut (K.faults sink.old) (K.faults sink.new) result }
{
    let Ok(pool) = finish(alloc, pool) else {
        return Err(OutputStop::OutOfMemory);
    };
    put_saved(alloc, &pool, sink)
}
