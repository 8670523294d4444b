//! What is read of a feed, written out: a score as `1=2:0`, an ask as `ask` and the number of
//! events so far, a fault of the source as `!`, the end as a point, all else as `?`. The entries
//! stand apart by a blank. Fixtures count from 1, as in a feed.

ghost use Rattle.std.specs.Prelude.{◌≤◌, IsTrue, length};
ghost use Rattle.league_core.specs.game.Seasons.{IsSeasonOf};

use crate::line_telling::memory;
use fixture_sheet::read_sheet;
use league_core::{Event, Season, Sheet};
use port_core::{LineReader, MemSource, ReadStop};
use result_log::{Entry, FeedStop, next_entry};
use std::alloc::Global;
use std::io::Write;
use std::test::Fail;

/// A sheet and the feed after it, byte by byte over a source of which these calls fail.
pub fn told(alloc: Global, input: &[u8], fail: &[u64]) -> Result<Vec<u8>, Fail> {
    let mut source = memory(alloc, input, 1, fail)?;
    told_by(alloc, &mut source)
}

fn told_by(alloc: Global, source: &mut MemSource) -> Result<Vec<u8>, Fail> {
    let mut reader = LineReader::new(alloc)?;
    told_with(alloc, &mut reader, source)
}

fn told_with(
    alloc: Global,
    reader: &mut LineReader,
    source: &mut MemSource,
) -> Result<Vec<u8>, Fail> {
    match read_sheet(alloc, reader, source) {
        Ok(sheet) => read_after(alloc, &sheet, reader, source),
        Err(_) => Err("no sheet".into()),
    }
}

fn read_after(
    alloc: Global,
    sheet: &Sheet,
    reader: &mut LineReader,
    source: &mut MemSource,
) -> Result<Vec<u8>, Fail> {
    let mut season = Season::unplayed(alloc, sheet.clubs.len(), sheet.fixtures.len())?;
    let mut out = Vec::new(alloc);
    tell_feed(alloc, sheet, &mut season, reader, source, &mut out)?;
    Ok(out)
}

fn tell_feed(
    alloc: Global,
    sheet: &Sheet,
    season: &mut Season,
    reader: &mut LineReader,
    source: &mut MemSource,
    out: &mut Vec<u8>,
) -> Result<(), Fail> {
    let mut events = 0;
    for _ in 0..60 {
        if !is_of(season, sheet) {
            return Err("a season of another sheet".into());
        }
        match next_entry(alloc, sheet, season, events, false, reader, source) {
            Ok(Entry::Change(event)) => {
                season.apply(&event);
                events += 1;
                tell_event(&event, out)?;
            }
            Ok(Entry::Ask) => write!(out, "ask{events} ")?,
            Ok(Entry::End) => return Ok(out.push(b'.')?),
            Err(FeedStop::Read(ReadStop::ReadFault)) => out.extend_from_slice(b"! ")?,
            _ => return Ok(out.push(b'?')?),
        }
    }
    Ok(())
}

/// Whether a season is one of the sheet: a test of its own, so that what follows may rest on it.
pub fn is_of(season: &Season, sheet: &Sheet) -> bool
    ensures { IsTrue result
        → IsSeasonOf sheet.now season.now × (length sheet.now.fixtures ≤ 65535)
        × (length sheet.now.clubs ≤ 255) }
{
    season.scores().len() == sheet.fixtures.len()
        && season.deductions().len() == sheet.clubs.len()
        && sheet.fixtures.len() <= 65535
        && sheet.clubs.len() <= 255
}

fn tell_event(event: &Event, out: &mut Vec<u8>) -> Result<(), Fail> {
    match event {
        Event::Set { fixture, score } => {
            let number = u32::from(*fixture) + 1;
            let (home, away) = (score.home, score.away);
            Ok(write!(out, "{number}={home}:{away} ")?)
        }
        Event::Clear { .. } | Event::Deduct { .. } => Ok(out.push(b'?')?),
    }
}
