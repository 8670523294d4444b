//! The sheet of an input.

ghost use Rattle.std.specs.Prelude.{◌≡◌, IfOk, IfSome, Option};
ghost use Rattle.league_core.specs.game.Sheets.{IsWithinLimits};
ghost use Rattle.port_core.specs.Contents.{Contents};
ghost use Rattle.port_core.specs.Readers.{TakesInput, contents_to_come};
ghost use Rattle.port_core.specs.inside.ReaderCalls.{LeavesReader, PassesTo, given_by};
ghost use Rattle.fixture_sheet.specs.inside.Calls.{CountsSheet, KeepsLimits, Leads, PassesUpTo};
ghost use Rattle.fixture_sheet.specs.inside.Calls.{ReadsSheet, StepMoves, StepReads};
ghost use Rattle.fixture_sheet.specs.inside.Calls.{sheet_answer_after};
ghost use Rattle.fixture_sheet.specs.inside.SheetReads.{StopsAtLine, StopsAtSheet};
ghost use Rattle.fixture_sheet.specs.Records.{sheet_rules};

use crate::draft::Draft;
use crate::fault::{ReadingStop, RecordStop, SheetStop};
use crate::progress::{Progress, SheetSoFar, take_content};
use league_core::Sheet;
use port_core::{Line, LineReader, Source};
use std::alloc::Global;

/// Reads a league's sheet, as `read_records` says.
pub fn read_sheet<S: Source>(
    alloc: Global,
    reader: &mut LineReader,
    source: &mut S,
) -> Result<Sheet, SheetStop>
    // If the source shows its bytes: what was still to come, and what is.
    ensures reads { ReadsSheet sheet_rules
        (contents_to_come reader.old (S.left source.old))
        (contents_to_come reader.new (S.left source.new)) result }
    ensures limits { IfOk result IsWithinLimits }

    // Which lines of the input were passed, whole, and where the reader is left. At a refusal of
    // the input's end nothing is left of the source; at a read fault no whole line is in hand.
    ensures passes { PassesUpTo reader.old reader.new (S.left source.old) (S.left source.new)
        (S.ended source.old) (S.ended source.new) (sheet_answer_after reader.new result) }
    ensures leaves { LeavesReader reader.new (S.left source.new)
        (sheet_answer_after reader.new result) }
    ensures takes { TakesInput reader.old reader.new (S.left source.old) (S.left source.new) }

    // Reading stops at the read that completes the answer.
    ensures last { StopsAtSheet sheet_rules S.left S.reads reader.old reader.new source.old
        source.new result }
    ensures cause { CountsSheet (S.faults source.old) (S.faults source.new) result }
{
    read_records::<Draft, S>(alloc, reader, source)
}

/// Reads up to and with the record `season`. On return the reader is at the next line: the feed's
/// first one, or the one after the refused line. On any stop, a read fault too, the sheet so far is
/// dropped: a later call begins a new sheet with the lines that are left.
pub fn read_records<D: SheetSoFar, S: Source>(
    alloc: Global,
    reader: &mut LineReader,
    source: &mut S,
) -> Result<D::Whole, ReadingStop<D::Fault>>
    // If the source shows its bytes: what was still to come, and what is.
    ensures reads { ReadsSheet D.rules
        (contents_to_come reader.old (S.left source.old))
        (contents_to_come reader.new (S.left source.new)) result }
    ensures limits { IfOk result D.is_whole }

    // Which lines of the input were passed, whole, and where the reader is left. At a refusal of
    // the input's end nothing is left of the source; at a read fault no whole line is in hand.
    ensures passes { PassesUpTo reader.old reader.new (S.left source.old) (S.left source.new)
        (S.ended source.old) (S.ended source.new) (sheet_answer_after reader.new result) }
    ensures leaves { LeavesReader reader.new (S.left source.new)
        (sheet_answer_after reader.new result) }
    ensures takes { TakesInput reader.old reader.new (S.left source.old) (S.left source.new) }

    // Reading stops at the read that completes the answer.
    ensures last { StopsAtSheet D.rules S.left S.reads reader.old reader.new source.old
        source.new result }
    ensures cause { CountsSheet (S.faults source.old) (S.faults source.new) result }
{
    let mut draft: Option<D> = None;
    'records: loop {
        match next_record(alloc, reader, source, draft) {
            Ok(Progress::SoFar(next)) => draft = next,
            Ok(Progress::Whole(sheet)) => return Ok(sheet),
            Err(stop) => return Err(stop),
        }
    }
}

// Takes the next content, or the end.
fn next_record<D: SheetSoFar, S: Source>(
    alloc: Global,
    reader: &mut LineReader,
    source: &mut S,
    draft: Option<D>,
) -> Result<Progress<D, D::Whole>, ReadingStop<D::Fault>>
    requires { IfSome draft D.is_sound }
    ensures reads { (start : Option Contents)
        → Leads D.rules start (contents_to_come reader.old (S.left source.old)) draft
        → StepReads D.rules start (contents_to_come reader.new (S.left source.new)) result }
    ensures moves { StepMoves reader.old reader.new result }
    ensures limits { KeepsLimits D.is_sound D.is_whole result }
    ensures passes { PassesTo reader.old reader.new (S.left source.old) (S.left source.new)
        (S.ended source.old) (S.ended source.new)
        (given_by (sheet_answer_after reader.new result) reader.new.text) }
    ensures leaves { LeavesReader reader.new (S.left source.new)
        (sheet_answer_after reader.new result) }
    ensures takes { TakesInput reader.old reader.new (S.left source.old) (S.left source.new) }
    ensures last { StopsAtLine S.left S.reads reader.old reader.new source.old source.new result }
    ensures cause { CountsSheet (S.faults source.old) (S.faults source.new) result }
{
    match reader.next(source) {
        Ok(Line::Text { number }) => match take_content(alloc, draft, reader.text()) {
            Ok(progress) => Ok(progress),
            Err(RecordStop::Fault(fault)) => Err(ReadingStop::Fault { number, fault }),
            Err(RecordStop::OutOfMemory) => Err(ReadingStop::OutOfMemory),
        },
        Ok(Line::End { number }) => Err(ReadingStop::Fault {
            number,
            fault: D::fault_at_end(&draft),
        }),
        Err(stop) => Err(ReadingStop::Read(stop)),
    }
}
