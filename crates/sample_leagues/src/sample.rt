//! A league of a text: its sheet, and the season after its feed.

ghost use Rattle.std.specs.Prelude.{◌≤◌, IfSome, IsTrue, length};
ghost use Rattle.league_core.specs.game.Seasons.{IsLeague, IsSeasonOf};
ghost use Rattle.league_core.specs.game.Sheets.{IsWithinLimits};

use fixture_sheet::read_sheet;
use league_core::{Season, Sheet};
use port_core::{LineReader, MemSource};
use result_log::{Entry, next_entry};
use std::alloc::Global;

/// A sheet, and a season of it.
#[derive(Drop)]
pub struct Sample {
    pub sheet: Sheet,
    pub season: Season,
}

/// The league of a text, with all that its feed reports. None if the text is refused, if its feed
/// has more than 10,000 entries, and if memory runs out.
pub fn sample_of(alloc: Global, text: &[u8]) -> Option<Sample>
    ensures { IfSome result (λ sample. IsLeague sample.sheet sample.season) }
{
    let bytes = text.to_vec(alloc).ok()?;
    let mut source = MemSource::new(bytes, 8192, Vec::new(alloc));
    let mut reader = LineReader::new(alloc).ok()?;
    let sheet = take_sheet(alloc, &mut reader, &mut source)?;
    let mut season = Season::unplayed(alloc, sheet.clubs.len(), sheet.fixtures.len()).ok()?;
    let is_read = take_feed(alloc, &sheet, &mut season, &mut reader, &mut source);
    if is_read && is_league(&sheet, &season) {
        Some(Sample { sheet, season })
    } else {
        None
    }
}

fn take_sheet(alloc: Global, reader: &mut LineReader, source: &mut MemSource) -> Option<Sheet>
    ensures { IfSome result IsWithinLimits }
{
    match read_sheet(alloc, reader, source) {
        Ok(sheet) => Some(sheet),
        Err(_) => None,
    }
}

// Whether the feed was read to its end.
fn take_feed(
    alloc: Global,
    sheet: &Sheet,
    season: &mut Season,
    reader: &mut LineReader,
    source: &mut MemSource,
) -> bool {
    for count in 0..10_000u64 {
        if !is_season_of(sheet, season) {
            return false;
        }
        match next_entry(alloc, sheet, season, count, false, reader, source) {
            Ok(Entry::Change(event)) => season.apply(&event),
            Ok(Entry::Ask) => {}
            Ok(Entry::End) => return true,
            _ => return false,
        }
    }
    false
}

fn is_league(sheet: &Sheet, season: &Season) -> bool
    requires limits { IsWithinLimits sheet.now }
    ensures { IsTrue result → IsLeague sheet.now season.now }
{
    is_season_of(sheet, season)
}

fn is_season_of(sheet: &Sheet, season: &Season) -> bool
    ensures of_sheet { IsTrue result → IsSeasonOf sheet.now season.now }
    ensures clubs { IsTrue result → length sheet.now.clubs ≤ 255 }
    ensures fixtures { IsTrue result → length sheet.now.fixtures ≤ 65535 }
{
    season.scores().len() == sheet.fixtures.len()
        && season.deductions().len() == sheet.clubs.len()
        && sheet.clubs.len() <= 255
        && sheet.fixtures.len() <= 65535
}
