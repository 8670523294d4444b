//! The first turn of a session: the sheet, and in `resume` the feed and the saved text after it.

ghost use Rattle.std.specs.Prelude.{◌≡◌, ℕ, Bool, false, List, [], None, Option};
ghost use Rattle.command_words.specs.declared.command.Mode.TheVariants.{Resume};
ghost use Rattle.league_core.specs.game.Sheets.{IsWithinLimits};
ghost use Rattle.port_core.specs.Contents.{start};
ghost use Rattle.port_core.specs.Readers.{stream_of};
ghost use Rattle.session_turns.specs.Courses.{awaits_saved, course_from, first_origin};
ghost use Rattle.run_ends.specs.inside.Ways.{Path};
ghost use Rattle.session_turns.specs.Texts.{session_kind};
ghost use Rattle.session_turns.specs.inside.TurnReads.{HasComeTo, TurnStops};
ghost use Rattle.session_turns.specs.inside.Turns.{IsLive, IsUnworked, TurnCounts, TurnGives};
ghost use Rattle.session_turns.specs.inside.Turns.{TurnIsLive};

use crate::answer::begin_pool;
use crate::opening::open_saved;
use crate::turn::Step;
use branch_pool::Pool;
use command_words::Mode;
use fixture_sheet::read_sheet;
use league_core::Sheet;
use port_core::{LineReader, Sink, Source};
use run_ends::{Status, end_at_stop, stop_of_sheet};
use std::alloc::Global;

/// Reads the sheet, and on to where asks are answered: in `resume` the feed and the saved text too.
pub fn take_sheet<S: Source, K: Sink>(
    alloc: Global,
    mode: Mode,
    reader: &mut LineReader,
    source: &mut S,
    sink: &mut K,
) -> Step
    requires { reader.old ≡ record { held = []; text = []; position = start } }
    ensures way { TurnGives mode (S.left source.old) (S.ended source.old)
        (stream_of reader.new (S.left source.new)) (S.ended source.new) reader.new.position
        (S.left source.new) (K.holds sink.old) (K.holds sink.new) result }
    ensures last { TurnStops S.left S.reads mode source.old reader.new source.new result }
    ensures live { TurnIsLive mode result }
    ensures counts { TurnCounts (S.faults source.old) (S.faults source.new)
        (K.faults sink.old) (K.faults sink.new) result }
{
    match read_sheet(alloc, reader, source) {
        Ok(sheet) => begin_feed(alloc, mode, sheet, reader, source, sink),
        Err(stop) => Step::Ends(end_at_stop(alloc, stop_of_sheet(stop), sink)),
    }
}

// Begins the pool after the sheet, and reads on to where asks are answered.
fn begin_feed<S: Source, K: Sink>(
    alloc: Global,
    mode: Mode,
    sheet: Sheet,
    reader: &mut LineReader,
    source: &mut S,
    sink: &mut K,
) -> Step
    requires { IsWithinLimits sheet }
    ensures way { (input : Option (List ℕ)) (ended : Bool) (old : Option (List ℕ))
        → Path (session_kind mode) input ended
        (stream_of reader.old (S.left source.old)) (S.ended source.old)
        reader.old.position (course_from mode (first_origin sheet) []) old (K.holds sink.old)
        → TurnGives mode input ended (stream_of reader.new (S.left source.new))
        (S.ended source.new) reader.new.position (S.left source.new) old (K.holds sink.new)
        result }
    ensures last { (first : S)
        → HasComeTo S.left S.reads mode first reader.old source.old (first_origin sheet) []
        → TurnStops S.left S.reads mode first reader.new source.new result }
    ensures live { TurnIsLive mode result }
    ensures counts { TurnCounts (S.faults source.old) (S.faults source.new)
        (K.faults sink.old) (K.faults sink.new) result }
{
    let Ok(pool) = begin_pool(alloc, mode, sheet) else {
        return Step::Ends(Status::OutOfMemory);
    };
    if awaits_saved(mode) {
        return resume_feed(alloc, pool, reader, source, sink);
    }
    Step::GoesOn(pool)
}

// Reads on to the lines after the saved text.
fn resume_feed<S: Source, K: Sink>(
    alloc: Global,
    pool: Pool,
    reader: &mut LineReader,
    source: &mut S,
    sink: &mut K,
) -> Step
    requires live { IsLive (Resume false) pool }
    requires unworked { IsUnworked pool }
    ensures way { (proofs : Bool) (input : Option (List ℕ)) (ended : Bool) (old : Option (List ℕ))
        → Path (session_kind (Resume proofs)) input ended
        (stream_of reader.old (S.left source.old))
        (S.ended source.old) reader.old.position
        (course_from (Resume proofs) (first_origin pool.sheet) pool.log) old (K.holds sink.old)
        → TurnGives (Resume proofs) input ended (stream_of reader.new (S.left source.new))
        (S.ended source.new) reader.new.position (S.left source.new) old (K.holds sink.new)
        result }
    ensures last { (proofs : Bool) (first : S)
        → HasComeTo S.left S.reads (Resume proofs) first reader.old source.old
        (first_origin pool.sheet) pool.log
        → TurnStops S.left S.reads (Resume proofs) first reader.new source.new result }
    ensures live { TurnIsLive (Resume false) result }
    ensures counts { TurnCounts (S.faults source.old) (S.faults source.new)
        (K.faults sink.old) (K.faults sink.new) result }
{
    match open_saved(alloc, pool, reader, source) {
        Ok(next) => Step::GoesOn(next),
        Err(stop) => Step::Ends(end_at_stop(alloc, stop, sink)),
    }
}

// A saved text comes before the first ask that is answered.
fn awaits_saved(mode: Mode) -> bool
    ensures { result ≡ awaits_saved mode None }
{
    match mode {
        Mode::Resume { .. } => true,
        Mode::Verdicts { .. }
        | Mode::Table
        | Mode::Scores
        | Mode::WhatIf
        | Mode::Save
        | Mode::Decide { .. }
        | Mode::Check { .. }
        | Mode::Groups { .. }
        | Mode::GroupsCheck
        | Mode::Sample { .. } => false,
    }
}
