//! A turn of a session after a round of the feed: its ask is answered, or the run ends.

ghost use Rattle.std.specs.Prelude.{List, Option};
ghost use Rattle.league_core.specs.search.Trees.{Tree};
ghost use Rattle.session_turns.specs.inside.Halts.{IsAskable};
ghost use Rattle.session_turns.specs.inside.Progress.{KeepsSaved};
ghost use Rattle.session_turns.specs.inside.Turns.{AskGives, CloseGives, CountsClose, CountsTurn};
ghost use Rattle.session_turns.specs.inside.Turns.{IsLive, TurnIsLive};

use crate::answer::put_answer;
use crate::closing::close_session;
use answer_rows::OutputStop;
use branch_pool::Pool;
use command_words::Mode;
use plain_rounds::RoundEnd;
use port_core::Sink;
use run_ends::{Status, end_at_stop, stop_of_feed};
use std::alloc::Global;

/// What came of a turn.
#[derive(Drop)]
pub enum Step {
    /// The session goes on, with the pool that it keeps.
    GoesOn(Pool),
    Ends(Status),
}

/// An ask is answered, the end or a stop ends the run.
pub fn close_round<K: Sink>(
    alloc: Global,
    mode: Mode,
    pool: Pool,
    end: RoundEnd,
    about: Option<u16>,
    sink: &mut K,
) -> Step
    requires live { IsLive mode pool }
    requires askable { IsAskable pool about }
    ensures gives { CloseGives mode pool about end (K.holds sink.old) (K.holds sink.new) result }
    ensures live { TurnIsLive mode result }
    ensures counts { CountsClose end (K.faults sink.old) (K.faults sink.new) result }
{
    match end {
        RoundEnd::Ask => take_ask(alloc, mode, pool, about, sink),
        RoundEnd::End => Step::Ends(close_session(alloc, mode, pool, sink)),
        RoundEnd::Stop(stop) => Step::Ends(end_at_stop(alloc, stop_of_feed(stop), sink)),
    }
}

fn take_ask<K: Sink>(
    alloc: Global,
    mode: Mode,
    pool: Pool,
    about: Option<u16>,
    sink: &mut K,
) -> Step
    requires live { IsLive mode pool }
    requires askable { IsAskable pool about }
    ensures answer { (saved : Option (List (Option Tree))) → KeepsSaved saved pool
        → AskGives mode pool about saved (K.holds sink.old) (K.holds sink.new) result }
    ensures live { TurnIsLive mode result }
    ensures counts { CountsTurn (K.faults sink.old) (K.faults sink.new) result }
{
    match put_answer(alloc, mode, pool, about, sink) {
        Ok(pool) => Step::GoesOn(pool),
        Err(OutputStop::WriteFault) => Step::Ends(Status::WriteFault),
        Err(OutputStop::OutOfMemory) => Step::Ends(Status::OutOfMemory),
    }
}
