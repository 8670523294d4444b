//! The asks of a feed.

ghost use Rattle.std.specs.Prelude.{◌≡◌, ◌≤◌, ◌++◌, [], ◌∷◌, All, IfOk, OnOk, length};
ghost use Rattle.league_core.specs.game.Sheets.{IsWithinLimits};
ghost use Rattle.league_core.specs.game.Seasons.{unplayed_season};
ghost use Rattle.port_core.specs.Contents.{input_limit};
ghost use Rattle.cert_check.specs.inside.InputCalls.{IsEntryOf};
ghost use Rattle.par_check.specs.Cuts.{AreAsks, bases_in};
ghost use Rattle.par_check.specs.FeedAsks.{TakesEntry, bases_from};

use crate::asks::Asks;
use cert_check::ReportKind;
use league_core::{Event, OutOfMemory, Sheet};
use result_log::Entry;
use std::alloc::Global;

/// The events and the asks among the entries of a sheet's feed, for a report of this kind.
pub fn asks_of(
    alloc: Global,
    kind: ReportKind,
    sheet: &Sheet,
    entries: &[Entry],
) -> Result<Asks, OutOfMemory>
    requires limits { IsWithinLimits sheet.now }
    requires entries { All (IsEntryOf sheet.now) entries.now }
    requires few { length entries.now ≤ input_limit }
    ensures are { IfOk result (AreAsks sheet.now) }
    ensures bases { IfOk result (λ asks. bases_in sheet.now asks ≡ bases_from kind sheet.now
        (unplayed_season (length sheet.now.clubs) (length sheet.now.fixtures)) 0 entries.now) }
{
    let mut asks = Asks {
        kind,
        log: Vec::new(alloc),
        epochs: Vec::new(alloc),
    };
    for entry in entries {
        add_entry(&mut asks, entry)?;
    }
    Ok(asks)
}

fn add_entry(asks: &mut Asks, entry: &Entry) -> Result<(), OutOfMemory>
    requires { length asks.old.log.items ≤ input_limit }
    ensures takes { OnOk result (TakesEntry entry.now asks.old.log.items asks.old.epochs.items
        asks.new.log.items asks.new.epochs.items) }
    ensures kind { asks.new.kind ≡ asks.old.kind }
{
    match entry {
        Entry::Change(event) => {
            add_event(asks, *event)?;
            Ok(())
        }
        Entry::Ask => {
            add_ask(asks)?;
            Ok(())
        }
        Entry::Proofs => Ok(()),
        Entry::End => Ok(()),
    }
}

fn add_event(asks: &mut Asks, event: Event) -> Result<(), OutOfMemory>
    ensures log { OnOk result (asks.new.log.items ≡ asks.old.log.items ++ event ∷ []) }
    ensures epochs { asks.new.epochs.items ≡ asks.old.epochs.items }
    ensures kind { asks.new.kind ≡ asks.old.kind }
{
    asks.log.push(event)?;
    Ok(())
}

// One ask more, at the epoch of the log so far.
fn add_ask(asks: &mut Asks) -> Result<(), OutOfMemory>
    requires { length asks.old.log.items ≤ input_limit }
    ensures epochs { OnOk result (asks.new.epochs.items
        ≡ asks.old.epochs.items ++ length asks.old.log.items ∷ []) }
    ensures log { asks.new.log.items ≡ asks.old.log.items }
    ensures kind { asks.new.kind ≡ asks.old.kind }
{
    let epoch = asks.log.len() as u32;
    asks.epochs.push(epoch)?;
    Ok(())
}
