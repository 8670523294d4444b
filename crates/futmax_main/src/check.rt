//! The modes `check` and `decide_check`: a report is judged, and one row says how.

ghost use Rattle.std.specs.Prelude.{◌≡◌, ◌≢◌, IfOk};
ghost use Rattle.futmax_main.specs.Checks.{ServesCheck, check_row, refused_row, status_of_check};
ghost use Rattle.futmax_main.specs.Checks.{accepted_row, report_judge};
ghost use Rattle.futmax_main.specs.Checks as checks;
ghost use Rattle.futmax_main.specs.inside.Judging.{CountsJudged, IsStatusOfCheck, JudgedEnds};
ghost use Rattle.run_ends.specs.Runs.{Counts};

use answer_rows::{number_field, put_row, text_field};
use cert_check::{CheckFailure, CheckOutcome, ReportFault, ReportKind};
use cert_text::write_row;
use league_core::OutOfMemory;
use par_check::check_input;
use port_core::{LineReader, Sink, Source};
use run_ends::{Cause, Fault, Status, fault_row};
use std::alloc::Global;
use std::thread::Threads;

/// The reports that a check takes: those of the mode `decide` are wide.
pub fn kind_of_check(wide: bool) -> ReportKind
    ensures { result ≡ checks.kind_of_check wide }
{
    if wide {
        ReportKind::Wide
    } else {
        ReportKind::Plain
    }
}

/// Reads the whole input, then judges the report in it, of this kind, and writes one row.
pub fn run_check<R: Threads + Sync, S: Source, K: Sink>(
    rt: &R,
    alloc: Global,
    kind: ReportKind,
    source: &mut S,
    sink: &mut K,
) -> Status
    ensures serves { ServesCheck (report_judge kind) (S.left source.old) (S.left source.new)
        (K.holds sink.old) (K.holds sink.new) result }
    ensures counts { Counts (S.faults source.old) (S.faults source.new)
        (K.faults sink.old) (K.faults sink.new) result }
    ensures status { result ≢ Status.BadWords }
{
    let Ok(mut reader) = LineReader::new(alloc) else {
        return Status::OutOfMemory;
    };
    match check_input(rt, alloc, kind, &mut reader, source) {
        Ok(outcome) => put_outcome(alloc, outcome, sink),
        Err(CheckFailure::ReadFault) => Status::ReadFault,
        Err(CheckFailure::OutOfMemory) => Status::OutOfMemory,
    }
}

fn put_outcome<K: Sink>(alloc: Global, outcome: CheckOutcome, sink: &mut K) -> Status
    ensures ends { JudgedEnds (check_row outcome) (status_of_check outcome) (K.holds sink.old)
        (K.holds sink.new) result }
    ensures counts { CountsJudged (K.faults sink.old) (K.faults sink.new) result }
{
    let Ok(row) = check_row(alloc, outcome) else {
        return Status::OutOfMemory;
    };
    put_judged(row.as_slice(), status_of_check(outcome), sink)
}

/// Writes the one row of a check that ends with this status.
pub(crate) fn put_judged<K: Sink>(row: &[u8], judged: Status, sink: &mut K) -> Status
    requires status { IsStatusOfCheck judged }
    ensures ends { JudgedEnds row.now judged (K.holds sink.old) (K.holds sink.new) result }
    ensures counts { CountsJudged (K.faults sink.old) (K.faults sink.new) result }
{
    match put_row(sink, row) {
        Ok(()) => judged,
        Err(_) => Status::WriteFault,
    }
}

/// The one row that is written, by what the input comes to.
pub(crate) fn check_row(alloc: Global, outcome: CheckOutcome) -> Result<Vec<u8>, OutOfMemory>
    ensures { IfOk result (λ row. row.items ≡ check_row outcome) }
{
    match outcome {
        CheckOutcome::Accepted { rows, unsettled } => accepted_row(alloc, rows, unsettled),
        CheckOutcome::Refused { number, fault } => refused_row(alloc, number, fault),
        CheckOutcome::BadSheet { number, fault } => {
            let cause = Cause::Sheet(fault);
            fault_row(alloc, &Fault { number, cause })
        }
        CheckOutcome::BadFeed { number, fault } => {
            let cause = Cause::Feed(fault);
            fault_row(alloc, &Fault { number, cause })
        }
        CheckOutcome::LineTooLong { number } => {
            let cause = Cause::LineTooLong;
            fault_row(alloc, &Fault { number, cause })
        }
        CheckOutcome::InputTooLong { number } => {
            let cause = Cause::InputTooLong;
            fault_row(alloc, &Fault { number, cause })
        }
    }
}

/// `accepted,ROWS,UNSETTLED`, alone.
pub(crate) fn accepted_row(alloc: Global, rows: u64, unsettled: u64) -> Result<Vec<u8>, OutOfMemory>
    ensures { IfOk result (λ row. row.items ≡ accepted_row rows unsettled) }
{
    let fields = [
        text_field(alloc, "accepted")?,
        number_field(alloc, rows)?,
        number_field(alloc, unsettled)?,
    ];
    write_row(alloc, &fields)
}

/// `refused,LINE,CODE`, alone.
pub(crate) fn refused_row(
    alloc: Global,
    number: u64,
    fault: ReportFault,
) -> Result<Vec<u8>, OutOfMemory>
    ensures { IfOk result (λ row. row.items ≡ refused_row number fault) }
{
    let fields = [
        text_field(alloc, "refused")?,
        number_field(alloc, number)?,
        text_field(alloc, fault.code())?,
    ];
    write_row(alloc, &fields)
}

/// The status, by the same.
pub(crate) fn status_of_check(outcome: CheckOutcome) -> Status
    ensures { result ≡ status_of_check outcome }
{
    match outcome {
        CheckOutcome::Accepted { .. } => Status::Done,
        CheckOutcome::Refused { .. } => Status::NotProved,
        CheckOutcome::BadSheet { .. } => Status::BadSheet,
        CheckOutcome::BadFeed { .. } => Status::BadFeed,
        CheckOutcome::LineTooLong { .. } | CheckOutcome::InputTooLong { .. } => Status::TooLong,
    }
}
