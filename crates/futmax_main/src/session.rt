//! A session: the sheet, and then round after round of the feed, each with the answer of its ask.

ghost use Rattle.std.specs.Prelude.{◌≡◌, ℕ, Bool, List, Option};
ghost use Rattle.port_core.specs.Readers.{stream_of};
ghost use Rattle.run_ends.specs.LastReads.{StopsSession};
ghost use Rattle.run_ends.specs.Runs.{Counts, Serves};
ghost use Rattle.run_ends.specs.inside.RunTurns.{MayEndSession};
ghost use Rattle.session_turns.specs.LastReads.{LeadSession};
ghost use Rattle.session_turns.specs.Texts.{session_kind};
ghost use Rattle.session_turns.specs.inside.Progress.{PathToPool};
ghost use Rattle.session_turns.specs.inside.TurnReads.{RoundStops, RoundsStop};
ghost use Rattle.session_turns.specs.inside.Turns.{IsLive, TurnCounts, TurnGives, TurnGoesOn};

use crate::halting::next_round;
use crate::setup::Setup;
use branch_pool::Pool;
use league_core::Sheet;
use port_core::{LineReader, Sink, Source};
use run_ends::Status;
use session_turns::{Halt, Step, close_round, take_sheet};
use std::sync::Wait;
use std::thread::Threads;
use worker_gate::Gate;

/// Reads the source to its end, or to what ends the run before.
pub fn run_session<R: Threads + Wait + Sync, S: Source + Send, K: Sink, G: Gate + Sync>(
    setup: &Setup<'_, R, G>,
    source: &mut S,
    sink: &mut K,
) -> Status
    ensures serves { Serves (session_kind setup.now.mode) (S.left source.old)
        (S.left source.new) (S.ended source.new) (K.holds sink.old) (K.holds sink.new) result }
    ensures last { StopsSession S.left S.reads (LeadSession setup.now.mode) source.old
        source.new result }
    ensures counts { Counts (S.faults source.old) (S.faults source.new)
        (K.faults sink.old) (K.faults sink.new) result }
    ensures status { MayEndSession result }
{
    let Ok(mut reader) = LineReader::new(setup.alloc) else {
        return Status::OutOfMemory;
    };
    match take_sheet(setup.alloc, setup.mode, &mut reader, source, sink) {
        Step::GoesOn(pool) => run_rounds(setup, pool, &mut reader, source, sink),
        Step::Ends(status) => status,
    }
}

// Reads the feed to its end, or to what ends the run before. The pool is kept from round to round.
fn run_rounds<R: Threads + Wait + Sync, S: Source + Send, K: Sink, G: Gate + Sync>(
    setup: &Setup<'_, R, G>,
    pool: Pool,
    reader: &mut LineReader,
    source: &mut S,
    sink: &mut K,
) -> Status
    requires { IsLive setup.now.mode pool }
    ensures serves { (input : Option (List ℕ)) (ended : Bool) (old : Option (List ℕ))
        → PathToPool setup.now.mode input ended (stream_of reader.old (S.left source.old))
        (S.ended source.old) reader.old.position pool old (K.holds sink.old)
        → Serves (session_kind setup.now.mode) input (S.left source.new) (S.ended source.new) old
        (K.holds sink.new) result }
    ensures last { RoundsStop S.left S.reads setup.now.mode pool reader.old source.old
        source.new result }
    ensures counts { Counts (S.faults source.old) (S.faults source.new)
        (K.faults sink.old) (K.faults sink.new) result }
    ensures status { MayEndSession result }
{
    let Ok(sheet) = pool.sheet().copy(setup.alloc) else {
        return Status::OutOfMemory;
    };
    let mut live = pool;
    'rounds: loop {
        match take_round(setup, &sheet, live, reader, source, sink) {
            Step::GoesOn(next) => live = next,
            Step::Ends(status) => return status,
        }
    }
}

// Reads the feed on to the next ask, which it answers, or to the end.
fn take_round<R: Threads + Wait + Sync, S: Source + Send, K: Sink, G: Gate + Sync>(
    setup: &Setup<'_, R, G>,
    sheet: &Sheet,
    pool: Pool,
    reader: &mut LineReader,
    source: &mut S,
    sink: &mut K,
) -> Step
    requires live { IsLive setup.now.mode pool }
    requires of_pool { sheet.now ≡ pool.sheet }
    ensures way { (input : Option (List ℕ)) (ended : Bool) (old : Option (List ℕ))
        → PathToPool setup.now.mode input ended (stream_of reader.old (S.left source.old))
        (S.ended source.old) reader.old.position pool old (K.holds sink.old)
        → TurnGives setup.now.mode input ended (stream_of reader.new (S.left source.new))
        (S.ended source.new) reader.new.position (S.left source.new) old (K.holds sink.new)
        result }
    ensures last { RoundStops S.left S.reads setup.now.mode pool reader.old reader.new
        source.old source.new result }
    ensures goes_on { TurnGoesOn setup.now.mode pool.sheet reader.old.position.bytes
        reader.new.position.bytes result }
    ensures counts { TurnCounts (S.faults source.old) (S.faults source.new)
        (K.faults sink.old) (K.faults sink.new) result }
{
    match next_round(setup, sheet, pool, reader, source) {
        Ok(Halt { pool, end, about }) => {
            close_round(setup.alloc, setup.mode, pool, end, about, sink)
        }
        Err(_) => Step::Ends(Status::OutOfMemory),
    }
}
