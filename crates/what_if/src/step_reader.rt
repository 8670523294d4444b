//! The next step of an input.

ghost use Rattle.std.specs.Prelude.{◌≤◌, IfOk, length};
ghost use Rattle.league_core.specs.game.Seasons.{IsSeasonOf};
ghost use Rattle.port_core.specs.Readers.{TakesInput, contents_to_come};
ghost use Rattle.port_core.specs.inside.ReaderCalls.{LeavesReader};
ghost use Rattle.result_log.specs.inside.Calls.{CountsEntry, MovesToEntry, PassesToEntry};
ghost use Rattle.result_log.specs.inside.Calls.{ReadsEntry, entry_answer_after};
ghost use Rattle.result_log.specs.inside.LastReads.{StopsAtEntry};
ghost use Rattle.what_if.specs.Steps.{step_line};
ghost use Rattle.what_if.specs.inside.StepCalls.{IsStepAt, IsStepThere, forgotten_answer};

use crate::step::{Step, Steps};
use league_core::{Season, Sheet};
use port_core::{LineReader, Source};
use result_log::{FeedStop, SeasonSoFar, next_parsed};
use std::alloc::Global;

/// Reads on to the next record, and gives its step, or the first refusal of that line. Lines whose
/// fields are all empty are passed over. After an answer the reader stands at the next line.
///
/// `events` is how many events came before, and `season` is the season after them.
pub fn next_step<S: Source>(
    alloc: Global,
    sheet: &Sheet,
    season: &Season,
    events: u64,
    reader: &mut LineReader,
    source: &mut S,
) -> Result<Step, FeedStop>
    requires of_sheet { IsSeasonOf sheet.now season.now }
    requires clubs { length sheet.now.clubs ≤ 255 }
    requires numbers { length sheet.now.fixtures ≤ 65535 }
    // If the source tells its bytes: what was still to come, and what is.
    ensures reads { ReadsEntry (step_line sheet.now season.now events)
        (contents_to_come reader.old (S.left source.old))
        (contents_to_come reader.new (S.left source.new)) (forgotten_answer result) }
    ensures is_step { IfOk result (IsStepAt sheet.now season.now events) }
    ensures step { IsStepThere sheet.now season.now events reader.new.text result }

    // Which lines of the input were passed, all but the last without a record, and where the reader
    // is left. At the end nothing is left of the source; at a read fault no whole line is in hand.
    ensures passes { PassesToEntry (step_line sheet.now season.now events)
        reader.old reader.new (S.left source.old) (S.left source.new)
        (S.ended source.old) (S.ended source.new) (forgotten_answer result) }
    ensures leaves { LeavesReader reader.new (S.left source.new)
        (entry_answer_after reader.new (forgotten_answer result)) }
    ensures takes { TakesInput reader.old reader.new (S.left source.old) (S.left source.new) }
    ensures moves { MovesToEntry reader.old reader.new (forgotten_answer result) }

    // Reading stops at the read that completes the answer.
    ensures last { StopsAtEntry S.left S.reads (step_line sheet.now season.now events)
        reader.old reader.new source.old source.new (forgotten_answer result) }
    ensures cause { CountsEntry (S.faults source.old) (S.faults source.new)
        (forgotten_answer result) }
{
    let at = SeasonSoFar {
        sheet,
        season,
        events,
    };
    next_parsed(alloc, &Steps, &at, reader, source)
}
