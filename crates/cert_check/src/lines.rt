//! The lines of an input after its feed.

ghost use Rattle.std.specs.Prelude.{◌≡◌, []};
ghost use Rattle.port_core.specs.Readers.{TakesInput, contents_to_come};
ghost use Rattle.cert_check.specs.inside.InputCalls.{CountsLines, LeavesLines, ReadsLines, IfRead};

use kept_lines::LineList;
use league_core::OutOfMemory;
use port_core::{Line, LineReader, ReadStop, Source};

/// The lines of a report, and the number after the last line of the input.
#[derive(Drop)]
pub struct ReportLines {
    pub lines: LineList,
    pub end: u64,
}

/// Why the lines are not read to the end.
#[derive(Clone, Copy, Debug, PartialEq, Eq)]
pub enum LinesStop {
    Read(ReadStop),
    OutOfMemory,
}

impl From<OutOfMemory> for LinesStop {
    ghost use Rattle.cert_check.specs.declared.lines.LinesStop.TheVariants.{OutOfMemory};

    ghost from_gives = { λ _ stop. stop ≡ OutOfMemory };

    fn from(_: OutOfMemory) -> LinesStop {
        LinesStop::OutOfMemory
    }
}

/// Reads all that is left of the input, and keeps the lines that count in an empty list.
pub fn read_lines<S: Source>(
    empty: LineList,
    reader: &mut LineReader,
    source: &mut S,
) -> Result<ReportLines, LinesStop>
    requires { empty ≡ [] }
    // If the source shows its bytes: what was still to come, and what is.
    ensures reads { IfRead (contents_to_come reader.old (S.left source.old)) (λ contents.
        ReadsLines contents (contents_to_come reader.new (S.left source.new)) result) }
    ensures leaves { LeavesLines reader.new (S.left source.new) result }
    ensures takes { TakesInput reader.old reader.new (S.left source.old) (S.left source.new) }
    ensures cause { CountsLines (S.faults source.old) (S.faults source.new) result }
{
    let mut lines = empty;
    'lines: loop {
        match reader.next(source) {
            Ok(Line::Text { number }) => lines.add(number, reader.text())?,
            Ok(Line::End { number }) => return Ok(ReportLines { lines, end: number }),
            Err(stop) => return Err(LinesStop::Read(stop)),
        }
    }
}
