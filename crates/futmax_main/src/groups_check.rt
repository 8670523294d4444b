//! The mode `groups_check`: a report on a cup is judged, and one row says how.

ghost use Rattle.std.specs.Prelude.{◌≡◌, ◌≢◌, IfOk};
ghost use Rattle.futmax_main.specs.Checks.{ServesCheck};
ghost use Rattle.futmax_main.specs.CupModes.{cup_check_row, cup_judge, status_of_cup_check};
ghost use Rattle.futmax_main.specs.inside.Judging.{CountsJudged, JudgedEnds};
ghost use Rattle.run_ends.specs.Runs.{Counts};

use crate::check::{check_row, put_judged, status_of_check};
use cert_check::CheckFailure;
use cup_check::{CupOutcome, check_cup_input};
use league_core::OutOfMemory;
use port_core::{LineReader, Sink, Source};
use run_ends::{Cause, Fault, Status, fault_row};
use std::alloc::Global;

/// Reads the whole input, then judges the report on a cup in it, and writes one row.
pub fn run_cup_check<S: Source, K: Sink>(alloc: Global, source: &mut S, sink: &mut K) -> Status
    ensures serves { ServesCheck cup_judge (S.left source.old) (S.left source.new)
        (K.holds sink.old) (K.holds sink.new) result }
    ensures counts { Counts (S.faults source.old) (S.faults source.new)
        (K.faults sink.old) (K.faults sink.new) result }
    ensures status { result ≢ Status.BadWords }
{
    let Ok(mut reader) = LineReader::new(alloc) else {
        return Status::OutOfMemory;
    };
    match check_cup_input(alloc, &mut reader, source) {
        Ok(outcome) => put_cup_outcome(alloc, outcome, sink),
        Err(CheckFailure::ReadFault) => Status::ReadFault,
        Err(CheckFailure::OutOfMemory) => Status::OutOfMemory,
    }
}

fn put_cup_outcome<K: Sink>(alloc: Global, outcome: CupOutcome, sink: &mut K) -> Status
    ensures ends { JudgedEnds (cup_check_row outcome) (status_of_cup_check outcome)
        (K.holds sink.old) (K.holds sink.new) result }
    ensures counts { CountsJudged (K.faults sink.old) (K.faults sink.new) result }
{
    let Ok(row) = cup_check_row(alloc, outcome) else {
        return Status::OutOfMemory;
    };
    put_judged(row.as_slice(), status_of_cup_check(outcome), sink)
}

fn cup_check_row(alloc: Global, outcome: CupOutcome) -> Result<Vec<u8>, OutOfMemory>
    ensures { IfOk result (λ row. row.items ≡ cup_check_row outcome) }
{
    match outcome {
        CupOutcome::BadCup { number, fault } => {
            let cause = Cause::Cup(fault);
            fault_row(alloc, &Fault { number, cause })
        }
        CupOutcome::Judged(judged) => check_row(alloc, judged),
    }
}

fn status_of_cup_check(outcome: CupOutcome) -> Status
    ensures { result ≡ status_of_cup_check outcome }
{
    match outcome {
        CupOutcome::BadCup { .. } => Status::BadSheet,
        CupOutcome::Judged(judged) => status_of_check(judged),
    }
}
