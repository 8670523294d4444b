//! A whole input: the sheet of a cup, its feed, and the report after the record `proofs`.

ghost use Rattle.std.specs.Prelude.{◌≡◌, ◌≤◌, All, length};
ghost use Rattle.port_core.specs.Contents.{input_limit};
ghost use Rattle.port_core.specs.Readers.{TakesInput, contents_to_come};
ghost use Rattle.cert_check.specs.inside.InputCalls.{ChecksBy, CountsCheck, IfRead, IsEntryOf};
ghost use Rattle.cert_check.specs.inside.InputCalls.{LeavesCheck};
ghost use Rattle.cup_sheet.specs.Cups.{IsCup};
ghost use Rattle.cup_sheet.specs.CupFeeds.{joint_sheet};
ghost use Rattle.cup_check.specs.CupOutcomes.{cup_outcome_of, outcome_after_cup};
ghost use Rattle.cup_check.specs.inside.CupInputCalls.{LeavesCupCheck, as_cup_outcome};
ghost use Rattle.cup_check.specs.inside.CupInputCalls.{outcome_after_cup_feed};

use crate::entries::cup_report_outcome;
use crate::outcome::CupOutcome;
use cert_check::{
    CheckFailure, CheckOutcome, FeedSoFar, LinesStop, read_feed, read_lines, short, stopped,
};
use cup_feed::joint_sheet;
use cup_sheet::{Cup, CupStop, read_cup};
use kept_lines::LineList;
use league_core::Sheet;
use port_core::{LineReader, Source};
use result_log::{Entry, FeedStop};
use std::alloc::Global;

/// Reads a whole input in which a report on a cup is checked: the sheet of a cup, its feed with the
/// record `proofs`, and the report, which is judged when the input is read to its end.
///
/// Nothing is written. A refused line of sheet or feed, a line or an input that is too long, and a
/// fault of the source end the reading where they come.
pub fn check_cup_input<S: Source>(
    alloc: Global,
    reader: &mut LineReader,
    source: &mut S,
) -> Result<CupOutcome, CheckFailure>
    // If the source shows its bytes: what was still to come, and what is.
    ensures outcome { IfRead (contents_to_come reader.old (S.left source.old)) (λ contents.
        ChecksBy cup_outcome_of contents (contents_to_come reader.new (S.left source.new)) result) }

    // Where the reader is left: once the report was judged, at the input's end.
    ensures leaves { LeavesCupCheck reader.new (S.left source.new) result }
    ensures takes { TakesInput reader.old reader.new (S.left source.old) (S.left source.new) }

    // A fault only if the source counted one.
    ensures cause { CountsCheck (S.faults source.old) (S.faults source.new) result }
{
    match read_cup(alloc, reader, source) {
        Ok(cup) => judged(check_cup_feed(alloc, &cup, reader, source)),
        Err(CupStop::Fault { number, fault }) => Ok(CupOutcome::BadCup { number, fault }),
        Err(CupStop::Read(stop)) => judged(stopped(stop)),
        Err(CupStop::OutOfMemory) => Err(CheckFailure::OutOfMemory),
    }
}

fn judged(found: Result<CheckOutcome, CheckFailure>) -> Result<CupOutcome, CheckFailure>
    ensures { result ≡ as_cup_outcome found }
{
    Ok(CupOutcome::Judged(found?))
}

// What comes after the sheet.
fn check_cup_feed<S: Source>(
    alloc: Global,
    cup: &Cup,
    reader: &mut LineReader,
    source: &mut S,
) -> Result<CheckOutcome, CheckFailure>
    requires { IsCup cup.now }
    ensures outcome { IfRead (contents_to_come reader.old (S.left source.old)) (λ contents.
        ChecksBy (outcome_after_cup cup.now) contents
        (contents_to_come reader.new (S.left source.new)) result) }
    ensures leaves { LeavesCheck reader.new (S.left source.new) result }
    ensures takes { TakesInput reader.old reader.new (S.left source.old) (S.left source.new) }
    ensures cause { CountsCheck (S.faults source.old) (S.faults source.new) result }
{
    let sheet = joint_sheet(alloc, cup)?;
    check_joint_feed(alloc, cup, &sheet, reader, source)
}

// The feed, by the joint sheet of the cup, and what comes after it.
fn check_joint_feed<S: Source>(
    alloc: Global,
    cup: &Cup,
    sheet: &Sheet,
    reader: &mut LineReader,
    source: &mut S,
) -> Result<CheckOutcome, CheckFailure>
    requires cup { IsCup cup.now }
    requires of_cup { sheet.now ≡ joint_sheet cup.now }
    requires clubs { length sheet.now.clubs ≤ 255 }
    requires numbers { length sheet.now.fixtures ≤ 65535 }
    ensures outcome { IfRead (contents_to_come reader.old (S.left source.old)) (λ contents.
        ChecksBy (outcome_after_cup cup.now) contents
        (contents_to_come reader.new (S.left source.new)) result) }
    ensures leaves { LeavesCheck reader.new (S.left source.new) result }
    ensures takes { TakesInput reader.old reader.new (S.left source.old) (S.left source.new) }
    ensures cause { CountsCheck (S.faults source.old) (S.faults source.new) result }
{
    let unread = FeedSoFar::begin(alloc, sheet)?;
    match read_feed(alloc, sheet, unread, reader, source) {
        Ok(feed) => {
            if feed.proofs {
                let entries = feed.entries.as_slice();
                let course = CupCourse {
                    cup,
                    sheet,
                    entries,
                };
                check_cup_report(alloc, course, reader, source)
            } else {
                short(reader)
            }
        }
        Err(FeedStop::Fault { number, fault }) => Ok(CheckOutcome::BadFeed { number, fault }),
        Err(FeedStop::Read(stop)) => stopped(stop),
        Err(FeedStop::OutOfMemory) => Err(CheckFailure::OutOfMemory),
    }
}

// What a report is of: a cup, its joint sheet, and the entries of its feed.
#[derive(Clone, Copy)]
struct CupCourse<'a> {
    cup: &'a Cup,
    sheet: &'a Sheet,
    entries: &'a [Entry],
}

// What comes after the feed.
fn check_cup_report<S: Source>(
    alloc: Global,
    feed: CupCourse,
    reader: &mut LineReader,
    source: &mut S,
) -> Result<CheckOutcome, CheckFailure>
    requires cup { IsCup feed.cup.now }
    requires of_cup { feed.sheet.now ≡ joint_sheet feed.cup.now }
    requires entries { All (IsEntryOf feed.sheet.now) feed.entries.now }
    requires few { length feed.entries.now ≤ input_limit }
    ensures outcome { IfRead (contents_to_come reader.old (S.left source.old)) (λ contents.
        ChecksBy (outcome_after_cup_feed feed.entry.cup.now feed.entry.entries.now) contents
        (contents_to_come reader.new (S.left source.new)) result) }
    ensures leaves { LeavesCheck reader.new (S.left source.new) result }
    ensures takes { TakesInput reader.old reader.new (S.left source.old) (S.left source.new) }
    ensures cause { CountsCheck (S.faults source.old) (S.faults source.new) result }
{
    let empty = LineList::new(alloc)?;
    match read_lines(empty, reader, source) {
        Ok(told) => {
            match cup_report_outcome(alloc, feed.cup, feed.sheet, feed.entries, &told) {
                Ok(outcome) => Ok(outcome),
                Err(_) => Err(CheckFailure::OutOfMemory),
            }
        }
        Err(LinesStop::Read(stop)) => stopped(stop),
        Err(LinesStop::OutOfMemory) => Err(CheckFailure::OutOfMemory),
    }
}
