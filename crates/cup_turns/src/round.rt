//! A round of a cup's feed: up to the next ask, or the end.

ghost use Rattle.std.specs.Prelude.{◌≡◌, ◌≤◌, List, false, length};
ghost use Rattle.league_core.specs.declared.season.Event.{Event};
ghost use Rattle.result_log.specs.Records.{IsEntryAt};
ghost use Rattle.result_log.specs.inside.Calls.{CountsEntry, MovesToEntry};
ghost use Rattle.cup_turns.specs.inside.CupRounds.{IsAfterEvents, IsReadUp, WasRead, close_at};
ghost use Rattle.cup_turns.specs.inside.CupRounds.{cup_told};

use league_core::{Event, Season, Sheet};
use port_core::{LineReader, Source};
use result_log::{Entry, FeedStop, next_entry};
use std::alloc::Global;

/// How far the feed of a cup is read: the season of its joint sheet, and how many events it took.
#[derive(Drop)]
pub struct CupSoFar {
    pub season: Season,
    pub events: u64,
}

/// What a round of the feed ends with.
#[derive(Clone, Copy, Debug, PartialEq, Eq)]
pub enum Pause {
    Ask,
    End,
}

/// Reads the feed on to the next ask, or to its end, and takes each event.
pub fn read_on<S: Source>(
    alloc: Global,
    sheet: &Sheet,
    so_far: &mut CupSoFar,
    reader: &mut LineReader,
    source: &mut S,
) -> Result<Pause, FeedStop>
    requires read { WasRead sheet.now so_far.old }
    requires clubs { length sheet.now.clubs ≤ 255 }
    requires numbers { length sheet.now.fixtures ≤ 65535 }
    ensures read { WasRead sheet.now so_far.new }

    // The lines passed tell the events that came on the way, and the last one is what ends it.
    ensures round { (log : List Event) → IsAfterEvents sheet.now log so_far.old
        → IsReadUp S.left S.ended S.faults S.reads sheet.now log so_far.new reader.old reader.new
        source.old source.new (close_at result) }
    ensures moves { MovesToEntry reader.old reader.new (close_at result) }
    ensures cause { CountsEntry (S.faults source.old) (S.faults source.new) (close_at result) }
{
    'entries: loop {
        let (season, events) = (&so_far.season, so_far.events);
        match next_entry(alloc, sheet, season, events, false, reader, source) {
            Ok(Entry::Change(event)) => take(so_far, &event),
            Ok(Entry::Ask) => return Ok(Pause::Ask),
            Ok(Entry::End) => return Ok(Pause::End),
            Ok(Entry::Proofs) => unreachable!(),
            Err(stop) => return Err(stop),
        }
    }
}

// Takes an event.
fn take(so_far: &mut CupSoFar, event: &Event)
    requires { IsEntryAt so_far.old.season so_far.old.events false (Entry.Change event.now) }
    ensures { so_far.new ≡ cup_told so_far.old event.now }
{
    so_far.season.apply(event);
    so_far.events += 1;
}
