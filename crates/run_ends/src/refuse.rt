//! Why an input is read no further, and how that ends a run: a refused line has its row written.

ghost use Rattle.std.specs.Prelude.{◌≡◌};
ghost use Rattle.run_ends.specs.inside.Stops.{CountsEnd, CountsStop, FaultEnds, StopEnds};
ghost use Rattle.run_ends.specs.declared.refuse.InputStop.TheVariants.{Refused};
ghost use Rattle.run_ends.specs.inside.Stops.{stop_of_cup, stop_of_feed, stop_of_read};
ghost use Rattle.run_ends.specs.inside.Stops.{stop_of_sheet};
ghost use Rattle.run_ends.specs.InputEnds.{save_fault, status_of_cause};

use crate::rows::fault_row;
use crate::run_end::{Cause, Fault};
use crate::status::Status;
use answer_rows::put_row;
use cup_sheet::CupStop;
use fixture_sheet::SheetStop;
use port_core::{ReadStop, Sink};
use result_log::FeedStop;
use std::alloc::Global;

/// Why an input is read no further.
#[derive(Clone, Copy, Debug, PartialEq, Eq)]
pub enum InputStop {
    Refused(Fault),
    ReadFault,
    OutOfMemory,
}

/// Why no sheet is given.
pub fn stop_of_sheet(stop: SheetStop) -> InputStop
    ensures { result ≡ stop_of_sheet stop }
{
    match stop {
        SheetStop::Fault { number, fault } => {
            let cause = Cause::Sheet(fault);
            InputStop::Refused(Fault { number, cause })
        }
        SheetStop::Read(stop) => stop_of_read(stop),
        SheetStop::OutOfMemory => InputStop::OutOfMemory,
    }
}

/// Why no cup is given.
pub fn stop_of_cup(stop: CupStop) -> InputStop
    ensures { result ≡ stop_of_cup stop }
{
    match stop {
        CupStop::Fault { number, fault } => {
            let cause = Cause::Cup(fault);
            InputStop::Refused(Fault { number, cause })
        }
        CupStop::Read(stop) => stop_of_read(stop),
        CupStop::OutOfMemory => InputStop::OutOfMemory,
    }
}

/// Why the feed stopped.
pub fn stop_of_feed(stop: FeedStop) -> InputStop
    ensures { result ≡ stop_of_feed stop }
{
    match stop {
        FeedStop::Fault { number, fault } => {
            let cause = Cause::Feed(fault);
            InputStop::Refused(Fault { number, cause })
        }
        FeedStop::Read(stop) => stop_of_read(stop),
        FeedStop::OutOfMemory => InputStop::OutOfMemory,
    }
}

/// A line, or the end, where no saved text has it.
pub fn unsaved(number: u64) -> InputStop
    ensures { result ≡ Refused (save_fault number) }
{
    let cause = Cause::BadSave;
    InputStop::Refused(Fault { number, cause })
}

/// Why the reader stopped.
pub fn stop_of_read(stop: ReadStop) -> InputStop
    ensures { result ≡ stop_of_read stop }
{
    match stop {
        ReadStop::ReadFault => InputStop::ReadFault,
        ReadStop::LineTooLong { number } => {
            let cause = Cause::LineTooLong;
            InputStop::Refused(Fault { number, cause })
        }
        ReadStop::InputTooLong { number } => {
            let cause = Cause::InputTooLong;
            InputStop::Refused(Fault { number, cause })
        }
    }
}

/// Ends a run at a stop.
pub fn end_at_stop<K: Sink>(alloc: Global, stop: InputStop, sink: &mut K) -> Status
    ensures ends { StopEnds stop (K.holds sink.old) (K.holds sink.new) result }
    ensures counts { CountsStop stop (K.faults sink.old) (K.faults sink.new) result }
{
    match stop {
        InputStop::Refused(fault) => refuse(alloc, fault, sink),
        InputStop::ReadFault => Status::ReadFault,
        InputStop::OutOfMemory => Status::OutOfMemory,
    }
}

// Writes the row of a fault, which ends the run.
fn refuse<K: Sink>(alloc: Global, fault: Fault, sink: &mut K) -> Status
    ensures fault { FaultEnds fault (K.holds sink.old) (K.holds sink.new) result }
    ensures counts { CountsEnd (K.faults sink.old) (K.faults sink.new) result }
{
    let Ok(row) = fault_row(alloc, &fault) else {
        return Status::OutOfMemory;
    };
    match put_row(sink, row.as_slice()) {
        Ok(()) => status_of_cause(fault.cause),
        Err(_) => Status::WriteFault,
    }
}

fn status_of_cause(cause: Cause) -> Status
    ensures { result ≡ status_of_cause cause }
{
    match cause {
        Cause::Sheet(_) | Cause::Cup(_) => Status::BadSheet,
        Cause::Feed(_) | Cause::BadSave => Status::BadFeed,
        Cause::LineTooLong | Cause::InputTooLong => Status::TooLong,
    }
}
