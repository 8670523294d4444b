//! A whole input: a sheet, its feed, and the report after the record `proofs`.

ghost use Rattle.std.specs.Prelude.{◌≡◌, ◌≤◌, All, length};
ghost use Rattle.league_core.specs.game.Sheets.{IsWithinLimits};
ghost use Rattle.port_core.specs.Contents.{input_limit};
ghost use Rattle.port_core.specs.Readers.{TakesInput, contents_to_come};
ghost use Rattle.cert_check.specs.inside.InputCalls.{ChecksBy, ChecksInput, CountsCheck, IsEntryOf};
ghost use Rattle.cert_check.specs.inside.InputCalls.{LeavesCheck, IfRead, outcome_after_feed};
ghost use Rattle.cert_check.specs.inside.InputCalls.{outcome_after_sheet};

use crate::feed_report::report_outcome;
use cert_check::{
    CheckFailure, CheckOutcome, FeedSoFar, LinesStop, ReportKind, read_feed, read_lines, short,
    stopped,
};
use fixture_sheet::{SheetStop, read_sheet};
use kept_lines::LineList;
use league_core::Sheet;
use port_core::{LineReader, Source};
use result_log::{Entry, FeedStop};
use std::alloc::Global;
use std::thread::Threads;

/// Reads a whole input in which a report of this kind is checked: a sheet, its feed with the record
/// `proofs`, and the report, which is judged when the input is read to its end.
///
/// Nothing is written. A refused line of sheet or feed, a line or an input that is too long, and a
/// fault of the source end the reading where they come.
pub fn check_input<R: Threads + Sync, S: Source>(
    rt: &R,
    alloc: Global,
    kind: ReportKind,
    reader: &mut LineReader,
    source: &mut S,
) -> Result<CheckOutcome, CheckFailure>
    // If the source shows its bytes: what was still to come, and what is.
    ensures outcome { ChecksInput kind (contents_to_come reader.old (S.left source.old))
        (contents_to_come reader.new (S.left source.new)) result }

    // Where the reader is left: once the report was judged, at the input's end.
    ensures leaves { LeavesCheck reader.new (S.left source.new) result }
    ensures takes { TakesInput reader.old reader.new (S.left source.old) (S.left source.new) }

    // A fault only if the source counted one.
    ensures cause { CountsCheck (S.faults source.old) (S.faults source.new) result }
{
    match read_sheet(alloc, reader, source) {
        Ok(sheet) => check_feed(rt, alloc, kind, &sheet, reader, source),
        Err(SheetStop::Fault { number, fault }) => Ok(CheckOutcome::BadSheet { number, fault }),
        Err(SheetStop::Read(stop)) => stopped(stop),
        Err(SheetStop::OutOfMemory) => Err(CheckFailure::OutOfMemory),
    }
}

// What comes after the sheet.
fn check_feed<R: Threads + Sync, S: Source>(
    rt: &R,
    alloc: Global,
    kind: ReportKind,
    sheet: &Sheet,
    reader: &mut LineReader,
    source: &mut S,
) -> Result<CheckOutcome, CheckFailure>
    requires { IsWithinLimits sheet.now }
    ensures outcome { IfRead (contents_to_come reader.old (S.left source.old)) (λ contents.
        ChecksBy (outcome_after_sheet kind sheet.now) contents
        (contents_to_come reader.new (S.left source.new)) result) }
    ensures leaves { LeavesCheck reader.new (S.left source.new) result }
    ensures takes { TakesInput reader.old reader.new (S.left source.old) (S.left source.new) }
    ensures cause { CountsCheck (S.faults source.old) (S.faults source.new) result }
{
    let unread = FeedSoFar::begin(alloc, sheet)?;
    match read_feed(alloc, sheet, unread, reader, source) {
        Ok(feed) => {
            if feed.proofs {
                let entries = feed.entries.as_slice();
                let course = Course {
                    kind,
                    sheet,
                    entries,
                };
                check_report(rt, alloc, course, reader, source)
            } else {
                short(reader)
            }
        }
        Err(FeedStop::Fault { number, fault }) => Ok(CheckOutcome::BadFeed { number, fault }),
        Err(FeedStop::Read(stop)) => stopped(stop),
        Err(FeedStop::OutOfMemory) => Err(CheckFailure::OutOfMemory),
    }
}

// What a report is of: of which kind it is, its sheet, and the entries of its feed.
#[derive(Clone, Copy)]
struct Course<'a> {
    kind: ReportKind,
    sheet: &'a Sheet,
    entries: &'a [Entry],
}

// What comes after the feed.
fn check_report<R: Threads + Sync, S: Source>(
    rt: &R,
    alloc: Global,
    course: Course,
    reader: &mut LineReader,
    source: &mut S,
) -> Result<CheckOutcome, CheckFailure>
    requires limits { IsWithinLimits course.sheet.now }
    requires entries { All (IsEntryOf course.sheet.now) course.entries.now }
    requires few { length course.entries.now ≤ input_limit }
    ensures outcome { IfRead (contents_to_come reader.old (S.left source.old)) (λ contents.
        ChecksBy (outcome_after_feed course.entry.kind course.entry.sheet.now
        course.entry.entries.now) contents
        (contents_to_come reader.new (S.left source.new)) result) }
    ensures leaves { LeavesCheck reader.new (S.left source.new) result }
    ensures takes { TakesInput reader.old reader.new (S.left source.old) (S.left source.new) }
    ensures cause { CountsCheck (S.faults source.old) (S.faults source.new) result }
{
    let empty = LineList::new(alloc)?;
    match read_lines(empty, reader, source) {
        Ok(told) => match report_outcome(
            rt,
            alloc,
            course.kind,
            course.sheet,
            course.entries,
            &told,
        ) {
            Ok(outcome) => Ok(outcome),
            Err(_) => Err(CheckFailure::OutOfMemory),
        },
        Err(LinesStop::Read(stop)) => stopped(stop),
        Err(LinesStop::OutOfMemory) => Err(CheckFailure::OutOfMemory),
    }
}
