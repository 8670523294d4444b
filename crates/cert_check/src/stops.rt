//! What a stop of the reading comes to as an outcome.

ghost use Rattle.std.specs.Prelude.{◌≡◌, length};
ghost use Rattle.cert_check.specs.inside.Goes.{IsStopWithin, stop_by_number};
ghost use Rattle.cert_check.specs.inside.InputCalls.{IsRefusedBy, IsShort, IsStoppedBy};

use crate::outcome::{CheckFailure, CheckOutcome, ReportFault};
use crate::stop::{CheckStop, CheckStopAt};
use kept_lines::LineList;
use league_core::OutOfMemory;
use port_core::{LineReader, ReadStop};

/// A stop at a position of lines, from 0, by the number of its line in the input.
pub fn by_number(stop: CheckStopAt, lines: &LineList) -> CheckStop
    requires { IsStopWithin (length lines.now) stop }
    ensures { result ≡ stop_by_number lines.now stop }
{
    match stop {
        CheckStopAt::BadLine(at) => CheckStop::BadLine {
            number: lines.number(at),
        },
        CheckStopAt::NoProof(at) => CheckStop::NoProof {
            number: lines.number(at),
        },
        CheckStopAt::Short => CheckStop::Short,
        CheckStopAt::OutOfMemory => CheckStop::OutOfMemory,
    }
}

/// A stop of the checker as an outcome; a report that is short is refused at the input's end.
pub fn refused_by(stop: CheckStop, end: u64) -> Result<CheckOutcome, OutOfMemory>
    ensures { IsRefusedBy end stop result }
{
    match stop {
        CheckStop::BadLine { number } => Ok(CheckOutcome::Refused {
            number,
            fault: ReportFault::BadLine,
        }),
        CheckStop::NoProof { number } => Ok(CheckOutcome::Refused {
            number,
            fault: ReportFault::NoProof,
        }),
        CheckStop::Short => Ok(CheckOutcome::Refused {
            number: end,
            fault: ReportFault::Short,
        }),
        CheckStop::OutOfMemory => Err(OutOfMemory),
    }
}

/// The input ended before the record `proofs`. A line has a byte at least, so the number after the
/// last one is never too great.
pub fn short(reader: &LineReader) -> Result<CheckOutcome, CheckFailure>
    ensures { IsShort reader.now result }
{
    let Some(number) = reader.number().checked_add(1) else {
        return Err(CheckFailure::OutOfMemory);
    };
    let fault = ReportFault::Short;
    Ok(CheckOutcome::Refused { number, fault })
}

/// The reading stopped.
pub fn stopped(stop: ReadStop) -> Result<CheckOutcome, CheckFailure>
    ensures { IsStoppedBy stop result }
{
    match stop {
        ReadStop::ReadFault => Err(CheckFailure::ReadFault),
        ReadStop::LineTooLong { number } => Ok(CheckOutcome::LineTooLong { number }),
        ReadStop::InputTooLong { number } => Ok(CheckOutcome::InputTooLong { number }),
    }
}
