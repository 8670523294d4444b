//! The feed of an input in which a report is checked, up to the record `proofs`.

ghost use Rattle.std.specs.Prelude.{◌≡◌, ◌≤◌, ◌+◌, true, All, IfOk, IfSome, OnOk};
ghost use Rattle.std.specs.Prelude.{length};
ghost use Rattle.port_core.specs.Contents.{Contents, input_limit};
ghost use Rattle.port_core.specs.Readers.{TakesInput, contents_to_come};
ghost use Rattle.result_log.specs.Records.{IsEntryAt};
ghost use Rattle.cert_check.specs.inside.InputCalls.{CountsFeed, IsEntryOf, IsStateOf, LeadsFeed};
ghost use Rattle.cert_check.specs.inside.InputCalls.{LeavesFeed, LeavesStep, ReadsFeed};
ghost use Rattle.cert_check.specs.inside.InputCalls.{StepMovesOn};
ghost use Rattle.cert_check.specs.inside.InputCalls.{StepsFeed, IfRead, state_unread, state_with};

use league_core::{OutOfMemory, Season, Sheet};
use port_core::{LineReader, Source};
use result_log::{Entry, FeedStop, next_entry};
use std::alloc::Global;
use std::marker::Model;

/// A feed that was read to its end: its events and asks in their order, and whether the record
/// `proofs` ended it, or the end of the input.
#[derive(Drop)]
pub struct FeedRead {
    pub entries: Vec<Entry>,
    pub proofs: bool,
}

/// How far a feed is read.
#[derive(Drop)]
pub struct FeedSoFar {
    entries: Vec<Entry>,
    season: Season,
    events: u64,
}

impl Model for FeedSoFar {
    ghost use Rattle.cert_check.specs.inside.InputCalls.{FeedSoFarView};

    ghost Value = { FeedSoFarView };

    ghost view = { λ feed. record {
      entries = feed.entries.items;
      season = feed.season;
      events = feed.events;
    } };
}

impl FeedSoFar {
    /// An empty feed.
    pub fn begin(alloc: Global, sheet: &Sheet) -> Result<FeedSoFar, OutOfMemory>
        ensures { IfOk result (λ feed. feed ≡ state_unread sheet.now) }
    {
        Ok(FeedSoFar {
            entries: Vec::new(alloc),
            season: Season::unplayed(alloc, sheet.clubs.len(), sheet.fixtures.len())?,
            events: 0,
        })
    }

    // One entry more.
    fn add(&mut self, entry: Entry) -> Result<(), OutOfMemory>
        requires { IsEntryAt self.old.season self.old.events true entry }
        ensures { OnOk result (self.new ≡ state_with self.old entry) }
    {
        if let Entry::Change(event) = &entry {
            self.season.apply(event);
            self.events += 1;
        }
        self.entries.push(entry)?;
        Ok(())
    }
}

/// Reads the entries of the sheet's feed, up to the record `proofs` or the end of the input, into a
/// feed of which nothing is read.
pub fn read_feed<S: Source>(
    alloc: Global,
    sheet: &Sheet,
    unread: FeedSoFar,
    reader: &mut LineReader,
    source: &mut S,
) -> Result<FeedRead, FeedStop>
    requires clubs { length sheet.now.clubs ≤ 255 }
    requires numbers { length sheet.now.fixtures ≤ 65535 }
    requires start { unread ≡ state_unread sheet.now }
    // If the source shows its bytes: what was still to come, and what is.
    ensures reads { IfRead (contents_to_come reader.old (S.left source.old)) (λ contents.
        ReadsFeed sheet.now contents (contents_to_come reader.new (S.left source.new)) result) }
    ensures entries { IfOk result (λ feed. All (IsEntryOf sheet.now) feed.entries.items) }
    ensures few { IfOk result (λ feed. length feed.entries.items ≤ input_limit) }
    ensures leaves { LeavesFeed reader.new (S.left source.new) result }
    ensures takes { TakesInput reader.old reader.new (S.left source.old) (S.left source.new) }
    ensures cause { CountsFeed (S.faults source.old) (S.faults source.new) result }
{
    let mut feed = unread;
    'entries: loop {
        match take_entry(alloc, sheet, &mut feed, reader, source) {
            Ok(None) => {}
            Ok(Some(proofs)) => {
                let entries = feed.entries;
                return Ok(FeedRead { entries, proofs });
            }
            Err(stop) => return Err(stop),
        }
    }
}

// Takes the next entry: whether proofs follow, if it ends the feed.
fn take_entry<S: Source>(
    alloc: Global,
    sheet: &Sheet,
    feed: &mut FeedSoFar,
    reader: &mut LineReader,
    source: &mut S,
) -> Result<Option<bool>, FeedStop>
    requires clubs { length sheet.now.clubs ≤ 255 }
    requires numbers { length sheet.now.fixtures ≤ 65535 }
    requires state { IsStateOf sheet.now feed.old }
    ensures reads { (start : Contents)
        → LeadsFeed sheet.now start (contents_to_come reader.old (S.left source.old))
        feed.old.entries
        → StepsFeed sheet.now start (contents_to_come reader.new (S.left source.new))
        feed.new.entries result }
    ensures state { IfOk result (λ _. IsStateOf sheet.now feed.new) }
    ensures few { IfOk result (λ _. length feed.new.entries ≤ length feed.old.entries + 1) }
    ensures kept { IfOk result (λ found. IfSome found (λ _. feed.new ≡ feed.old)) }
    ensures moves { StepMovesOn reader.old reader.new result }
    ensures leaves { LeavesStep reader.new (S.left source.new) result }
    ensures takes { TakesInput reader.old reader.new (S.left source.old) (S.left source.new) }
    ensures cause { CountsFeed (S.faults source.old) (S.faults source.new) result }
{
    let (season, events) = (&feed.season, feed.events);
    match next_entry(alloc, sheet, season, events, true, reader, source) {
        Ok(Entry::Change(event)) => match feed.add(Entry::Change(event)) {
            Ok(()) => Ok(None),
            Err(OutOfMemory) => Err(FeedStop::OutOfMemory),
        },
        Ok(Entry::Ask) => match feed.add(Entry::Ask) {
            Ok(()) => Ok(None),
            Err(OutOfMemory) => Err(FeedStop::OutOfMemory),
        },
        Ok(Entry::Proofs) => Ok(Some(true)),
        Ok(Entry::End) => Ok(Some(false)),
        Err(stop) => Err(stop),
    }
}
