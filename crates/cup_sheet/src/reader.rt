//! The cup of an input.

ghost use Rattle.std.specs.Prelude.{IfOk};
ghost use Rattle.port_core.specs.Readers.{TakesInput, contents_to_come};
ghost use Rattle.port_core.specs.inside.ReaderCalls.{LeavesReader};
ghost use Rattle.fixture_sheet.specs.inside.Calls.{CountsSheet, PassesUpTo, ReadsSheet};
ghost use Rattle.fixture_sheet.specs.inside.Calls.{sheet_answer_after};
ghost use Rattle.fixture_sheet.specs.inside.SheetReads.{StopsAtSheet};
ghost use Rattle.cup_sheet.specs.Cups.{IsCup};
ghost use Rattle.cup_sheet.specs.CupRecords.{cup_rules};

use crate::cup::{Cup, CupDraft};
use crate::fault::CupStop;
use fixture_sheet::read_records;
use port_core::{LineReader, Source};
use std::alloc::Global;

/// Reads a cup's sheet, as `read_records` says.
pub fn read_cup<S: Source>(
    alloc: Global,
    reader: &mut LineReader,
    source: &mut S,
) -> Result<Cup, CupStop>
    // If the source shows its bytes: what was still to come, and what is.
    ensures reads { ReadsSheet cup_rules
        (contents_to_come reader.old (S.left source.old))
        (contents_to_come reader.new (S.left source.new)) result }
    ensures limits { IfOk result (λ cup. IsCup cup) }

    // Which lines of the input were passed, whole, and where the reader is left. At a refusal of
    // the input's end nothing is left of the source; at a read fault no whole line is in hand.
    ensures passes { PassesUpTo reader.old reader.new (S.left source.old) (S.left source.new)
        (S.ended source.old) (S.ended source.new) (sheet_answer_after reader.new result) }
    ensures leaves { LeavesReader reader.new (S.left source.new)
        (sheet_answer_after reader.new result) }
    ensures takes { TakesInput reader.old reader.new (S.left source.old) (S.left source.new) }

    // Reading stops at the read that completes the answer.
    ensures last { StopsAtSheet cup_rules S.left S.reads reader.old reader.new source.old
        source.new result }
    ensures cause { CountsSheet (S.faults source.old) (S.faults source.new) result }
{
    read_records::<CupDraft, S>(alloc, reader, source)
}
