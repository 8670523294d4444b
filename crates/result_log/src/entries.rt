//! The reading whose records are entries, and the next entry of an input.

ghost use Rattle.std.specs.Prelude.{◌≤◌, IfOk, length};
ghost use Rattle.league_core.specs.game.Seasons.{IsSeasonOf};
ghost use Rattle.port_core.specs.Readers.{TakesInput, contents_to_come};
ghost use Rattle.port_core.specs.inside.ReaderCalls.{LeavesReader};
ghost use Rattle.result_log.specs.inside.Calls.{CountsEntry, MovesToEntry, PassesToEntry};
ghost use Rattle.result_log.specs.inside.Calls.{ReadsEntry, entry_answer_after};
ghost use Rattle.result_log.specs.Feeds.{entry_in};
ghost use Rattle.result_log.specs.inside.LastReads.{StopsAtEntry};
ghost use Rattle.result_log.specs.Records.{IsEntryAt, entry_of};

use crate::entry::Entry;
use crate::fault::{FeedFault, FeedStop};
use crate::reader::next_parsed;
use crate::reading::{Reading, SeasonSoFar};
use crate::record::read_event;
use fixture_sheet::Fields;
use league_core::{Season, Sheet};
use port_core::{LineReader, Source};
use std::alloc::Global;

/// Each record is an entry; `proofs` is whether proofs may follow the feed.
#[derive(Clone, Copy)]
pub struct Entries {
    pub proofs: bool,
}

impl Reading for Entries {
    type Parsed = Entry;

    ghost tells = { λ reading sheet season events fields.
        entry_of sheet season events reading.proofs fields };

    ghost entry = { λ told. told };

    fn read(&self, at: &SeasonSoFar<'_>, fields: &Fields) -> Result<Entry, FeedFault> {
        read_event(at.sheet, at.season, at.events, fields, self.proofs)
    }

    fn as_entry(told: Entry) -> Entry {
        told
    }

    fn end() -> Entry {
        Entry::End
    }
}

/// Reads on to the next record, and gives its entry, or the first refusal of that line. Lines whose
/// fields are all empty are passed over. After an answer the reader stands at the next line.
///
/// `events` is how many events came before, and `season` is the season after them; `proofs` is
/// whether proofs may follow the feed.
pub fn next_entry<S: Source>(
    alloc: Global,
    sheet: &Sheet,
    season: &Season,
    events: u64,
    proofs: bool,
    reader: &mut LineReader,
    source: &mut S,
) -> Result<Entry, FeedStop>
    requires of_sheet { IsSeasonOf sheet.now season.now }
    requires clubs { length sheet.now.clubs ≤ 255 }
    requires numbers { length sheet.now.fixtures ≤ 65535 }
    // If the source tells its bytes: what was still to come, and what is.
    ensures reads { ReadsEntry (entry_in sheet.now season.now events proofs)
        (contents_to_come reader.old (S.left source.old))
        (contents_to_come reader.new (S.left source.new)) result }
    ensures is_entry { IfOk result (λ entry. IsEntryAt season.now events proofs entry) }

    // Which lines of the input were passed, all but the last without a record, and where the reader
    // is left. At the end nothing is left of the source; at a read fault no whole line is in hand.
    ensures passes { PassesToEntry (entry_in sheet.now season.now events proofs)
        reader.old reader.new (S.left source.old) (S.left source.new)
        (S.ended source.old) (S.ended source.new) result }
    ensures leaves { LeavesReader reader.new (S.left source.new)
        (entry_answer_after reader.new result) }
    ensures takes { TakesInput reader.old reader.new (S.left source.old) (S.left source.new) }
    ensures moves { MovesToEntry reader.old reader.new result }

    // Reading stops at the read that completes the answer.
    ensures last { StopsAtEntry S.left S.reads (entry_in sheet.now season.now events proofs)
        reader.old reader.new source.old source.new result }
    ensures cause { CountsEntry (S.faults source.old) (S.faults source.new) result }
{
    let at = SeasonSoFar {
        sheet,
        season,
        events,
    };
    next_parsed(alloc, &Entries { proofs }, &at, reader, source)
}
