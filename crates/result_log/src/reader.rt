//! What the next record of an input tells.

ghost use Rattle.std.specs.Prelude.{IfOk, IfSome, option_map, true};
ghost use Rattle.port_core.specs.Readers.{TakesInput, contents_to_come};
ghost use Rattle.port_core.specs.inside.ReaderCalls.{LeavesReader, PassesTo, given_by};
ghost use Rattle.result_log.specs.inside.Calls.{AnswersLine, ComesThere, PassesToEntry};
ghost use Rattle.result_log.specs.inside.Calls.{CountsEntry, CountsRecord, MovesToEntry};
ghost use Rattle.result_log.specs.inside.Calls.{MovesToRecord, ReadsEntry, ReadsRecord};
ghost use Rattle.result_log.specs.inside.Calls.{entry_answer_after, answer_there};
ghost use Rattle.result_log.specs.Feeds.{line_as, parsed_in};
ghost use Rattle.result_log.specs.inside.LastReads.{StopsAtEntry, StopsAtRecord};
ghost use Rattle.result_log.specs.inside.Readings.{IsParsedThere, MayBeReadIn, MayBeTold};
ghost use Rattle.result_log.specs.inside.Readings.{answer_as};
ghost use Rattle.result_log.specs.Records.{IsEntryAt};

use crate::content::content_parsed;
use crate::fault::{ContentStop, FeedStop};
use crate::reading::{Reading, SeasonSoFar};
use port_core::{Line, LineReader, Source};
use std::alloc::Global;

/// Reads on to the next record, and gives what it tells, or the first refusal of that line. Lines
/// whose fields are all empty are passed over. After an answer the reader stands at the next line.
pub fn next_parsed<R: Reading, S: Source>(
    alloc: Global,
    reading: &R,
    at: &SeasonSoFar<'_>,
    reader: &mut LineReader,
    source: &mut S,
) -> Result<R::Parsed, FeedStop>
    requires { MayBeReadIn at.now.sheet.now at.now.season.now }
    // If the source tells its bytes: what was still to come, and what is.
    ensures reads { ReadsEntry (line_as R.entry
        (R.tells reading.now at.now.sheet.now at.now.season.now at.now.events))
        (contents_to_come reader.old (S.left source.old))
        (contents_to_come reader.new (S.left source.new)) (answer_as R.entry result) }
    ensures there { IsParsedThere R.entry
        (R.tells reading.now at.now.sheet.now at.now.season.now at.now.events) reader.new.text
        result }
    ensures may_come { IfOk result (λ told.
        IsEntryAt at.now.season.now at.now.events true (R.entry told)) }

    // Which lines of the input were passed, all but the last without a record, and where the reader
    // is left. At the end nothing is left of the source; at a read fault no whole line is in hand.
    ensures passes { PassesToEntry (line_as R.entry
        (R.tells reading.now at.now.sheet.now at.now.season.now at.now.events))
        reader.old reader.new (S.left source.old) (S.left source.new)
        (S.ended source.old) (S.ended source.new) (answer_as R.entry result) }
    ensures leaves { LeavesReader reader.new (S.left source.new)
        (entry_answer_after reader.new (answer_as R.entry result)) }
    ensures takes { TakesInput reader.old reader.new (S.left source.old) (S.left source.new) }
    ensures moves { MovesToEntry reader.old reader.new (answer_as R.entry result) }

    // Reading stops at the read that completes the answer.
    ensures last { StopsAtEntry S.left S.reads (line_as R.entry
        (R.tells reading.now at.now.sheet.now at.now.season.now at.now.events))
        reader.old reader.new source.old source.new (answer_as R.entry result) }
    ensures cause { CountsEntry (S.faults source.old) (S.faults source.new)
        (answer_as R.entry result) }
{
    'records: loop {
        if let Some(result) = take_line(alloc, reading, at, reader, source) {
            return result;
        }
    }
}

// What the next line tells, or none if no field is left of it.
fn take_line<R: Reading, S: Source>(
    alloc: Global,
    reading: &R,
    at: &SeasonSoFar<'_>,
    reader: &mut LineReader,
    source: &mut S,
) -> Option<Result<R::Parsed, FeedStop>>
    requires { MayBeReadIn at.now.sheet.now at.now.season.now }
    ensures reads { ReadsRecord (line_as R.entry
        (R.tells reading.now at.now.sheet.now at.now.season.now at.now.events))
        (contents_to_come reader.old (S.left source.old))
        (contents_to_come reader.new (S.left source.new))
        (option_map (answer_as R.entry) result) }
    ensures there { IfSome result (IsParsedThere R.entry
        (R.tells reading.now at.now.sheet.now at.now.season.now at.now.events) reader.new.text) }
    ensures may_come { IfSome result (λ answer. IfOk answer (λ told.
        IsEntryAt at.now.season.now at.now.events true (R.entry told))) }
    ensures passes { PassesTo reader.old reader.new (S.left source.old) (S.left source.new)
        (S.ended source.old) (S.ended source.new)
        (given_by (answer_there reader.new (option_map (answer_as R.entry) result))
        reader.new.text) }
    ensures comes { ComesThere (line_as R.entry
        (R.tells reading.now at.now.sheet.now at.now.season.now at.now.events))
        reader.new.text (option_map (answer_as R.entry) result) }
    ensures leaves { LeavesReader reader.new (S.left source.new)
        (answer_there reader.new (option_map (answer_as R.entry) result)) }
    ensures takes { TakesInput reader.old reader.new (S.left source.old) (S.left source.new) }
    ensures moves { MovesToRecord reader.old reader.new (option_map (answer_as R.entry) result) }
    ensures last { StopsAtRecord S.left S.reads reader.old reader.new source.old source.new
        (option_map (answer_as R.entry) result) }
    ensures cause { CountsRecord (S.faults source.old) (S.faults source.new)
        (option_map (answer_as R.entry) result) }
{
    match reader.next(source) {
        Ok(Line::Text { number }) => line_parsed(alloc, reading, at, number, reader.text()),
        Ok(Line::End { number: _ }) => Some(Ok(R::end())),
        Err(stop) => Some(Err(FeedStop::Read(stop))),
    }
}

// What the content of the line of this number tells, or none if no field is left of it.
fn line_parsed<R: Reading>(
    alloc: Global,
    reading: &R,
    at: &SeasonSoFar<'_>,
    number: u64,
    content: &[u8],
) -> Option<Result<R::Parsed, FeedStop>>
    requires { MayBeReadIn at.now.sheet.now at.now.season.now }
    ensures answer { AnswersLine number
        (parsed_in (R.tells reading.now at.now.sheet.now at.now.season.now at.now.events)
        content.now) result }
    ensures may_be { IfSome result (λ answer. IfOk answer (λ told.
        MayBeTold at.now.season.now at.now.events (R.entry told))) }
{
    match content_parsed(alloc, reading, at, content) {
        Ok(Some(told)) => Some(Ok(told)),
        Ok(None) => None,
        Err(ContentStop::Fault(fault)) => Some(Err(FeedStop::Fault { number, fault })),
        Err(ContentStop::OutOfMemory) => Some(Err(FeedStop::OutOfMemory)),
    }
}
