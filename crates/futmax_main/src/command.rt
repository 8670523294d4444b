//! A command, from its words to its status.

ghost use Rattle.std.specs.Prelude.{◌≡◌, ◌≢◌, None, Some, map, string_bytes};
ghost use Rattle.command_words.specs.declared.command.Mode.{Mode};
ghost use Rattle.command_words.specs.Commands.{mode_of};
ghost use Rattle.futmax_main.specs.Modes.{IsCheckMode, IsSettledAs, ReadsNothing, ServesAs};
ghost use Rattle.futmax_main.specs.Modes.{StopsAs};
ghost use Rattle.run_ends.specs.Runs.{Counts, RefusesWords};
ghost use Rattle.futmax_main.specs.inside.ModeEnds.{MayEndAs};
ghost use Rattle.session_turns.specs.inside.Turns.{CountsWords};

use crate::check::{kind_of_check, run_check};
use crate::groups::GroupAnswers;
use crate::groups_check::run_cup_check;
use crate::sample::run_sample;
use crate::session::run_session;
use crate::setup::Setup;
use answer_rows::put_row;
use command_words::{Command, Mode, command_of};
use cup_turns::run_cup;
use league_core::OutOfMemory;
use port_core::{Sink, Source};
use run_ends::{Status, usage_row};
use std::alloc::Global;
use std::sync::Wait;
use std::thread::Threads;
use worker_gate::Gate;

/// Runs a command: its words, of which the first is the program's own name, the input and the
/// output.
///
/// Rows go to the sink as soon as an ask is read. Running out of memory may end
/// any run, with `Status::OutOfMemory`.
pub fn futmax<R: Threads + Wait + Sync, S: Source + Send, K: Sink, G: Gate + Sync>(
    rt: &R,
    alloc: Global,
    words: Vec<String>,
    source: &mut S,
    sink: &mut K,
    gate: &G,
) -> Status
    // What was written, and what is left of the input, by the status.
    ensures serves { ServesAs (mode_of (map string_bytes words.items)) (S.left source.old)
        (S.left source.new) (S.ended source.new) (K.holds sink.old) (K.holds sink.new) result }
    // Reading stops at the read that completes the line at which a session ends.
    ensures last { StopsAs S.left S.reads (mode_of (map string_bytes words.items))
        source.old source.new result }
    // A fault of a device is returned only if its count rose, and else the counts stay.
    ensures counts { Counts (S.faults source.old) (S.faults source.new)
        (K.faults sink.old) (K.faults sink.new) result }
    // If no device failed, the status is the session's, or memory ran out; only a check says
    // that a report is no proof.
    ensures settled { result ≢ Status.ReadFault → result ≢ Status.WriteFault
        → IsSettledAs (mode_of (map string_bytes words.items)) (S.left source.old) result }
    ensures unproved { result ≡ Status.NotProved
        → (mode : Mode) × IsCheckMode mode
        × (mode_of (map string_bytes words.items) ≡ Some mode) }
    // Words are refused only if they fit no mode, and then nothing is read, nor for a sample.
    ensures words_cause { result ≡ Status.BadWords
        → mode_of (map string_bytes words.items) ≡ None }
    ensures unread { ReadsNothing (mode_of (map string_bytes words.items))
        → source.new ≡ source.old }
{
    match command_of(alloc, words.as_slice()) {
        Ok(Some(Command { mode, workers })) => {
            let setup = Setup {
                rt,
                alloc,
                mode,
                workers,
                gate,
            };
            run_mode(&setup, source, sink)
        }
        Ok(None) => refuse_words(alloc, sink),
        Err(OutOfMemory) => Status::OutOfMemory,
    }
}

// Does what the mode is for.
fn run_mode<R: Threads + Wait + Sync, S: Source + Send, K: Sink, G: Gate + Sync>(
    setup: &Setup<'_, R, G>,
    source: &mut S,
    sink: &mut K,
) -> Status
    ensures serves { ServesAs (Some setup.now.mode) (S.left source.old) (S.left source.new)
        (S.ended source.new) (K.holds sink.old) (K.holds sink.new) result }
    ensures last { StopsAs S.left S.reads (Some setup.now.mode) source.old source.new result }
    ensures counts { Counts (S.faults source.old) (S.faults source.new)
        (K.faults sink.old) (K.faults sink.new) result }
    ensures status { MayEndAs setup.now.mode result }
    ensures unread { ReadsNothing (Some setup.now.mode) → source.new ≡ source.old }
{
    match setup.mode {
        Mode::Verdicts { .. }
        | Mode::Table
        | Mode::Scores
        | Mode::WhatIf
        | Mode::Save
        | Mode::Resume { .. }
        | Mode::Decide { .. } => run_session(setup, source, sink),
        Mode::Check { wide } => {
            run_check(setup.rt, setup.alloc, kind_of_check(wide), source, sink)
        }
        Mode::Groups { proofs } => { run_cup(setup.alloc, &GroupAnswers { proofs }, source, sink) }
        Mode::GroupsCheck => run_cup_check(setup.alloc, source, sink),
        Mode::Sample { seed } => run_sample(setup.alloc, seed, sink),
    }
}

fn refuse_words<K: Sink>(alloc: Global, sink: &mut K) -> Status
    ensures serves { RefusesWords (K.holds sink.old) (K.holds sink.new) result }
    ensures counts { CountsWords (K.faults sink.old) (K.faults sink.new) result }
{
    let Ok(row) = usage_row(alloc) else {
        return Status::OutOfMemory;
    };
    match put_row(sink, row.as_slice()) {
        Ok(()) => Status::BadWords,
        Err(_) => Status::WriteFault,
    }
}
