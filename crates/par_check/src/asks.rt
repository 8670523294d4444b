//! The asks of a feed, and a report cut into items.

ghost use Rattle.std.specs.Prelude.{◌≡◌, ◌<◌, ◌≤◌, IfOk, get_or, length, take};
ghost use Rattle.league_core.specs.game.Seasons.{AreEventsOf, IsLeague, season_after};
ghost use Rattle.par_check.specs.Cuts as cuts;
ghost use Rattle.par_check.specs.Cuts.{AreAsks, season_at, season_before};

use cert_check::{CheckStop, ReportKind};
use league_core::{Event, OutOfMemory, Season, Sheet};
use std::alloc::Global;

/// The events of a feed, and the epoch of each of its asks: how many events came before it. A
/// report of this kind answers them.
#[derive(Drop)]
pub struct Asks {
    pub kind: ReportKind,
    pub log: Vec<Event>,
    pub epochs: Vec<u32>,
}

/// An item of a report: the position of its ask, its own among the rows of the answer, and its
/// lines by their positions, from one up to before another.
#[derive(Clone, Copy, Debug, PartialEq, Eq)]
pub struct Item {
    pub ask: u32,
    pub question_row: usize,
    pub from: usize,
    pub until: usize,
}

/// The items of a report by the grammar alone, the last one perhaps cut off, and where the grammar
/// stops.
#[derive(Drop)]
pub struct Cut {
    pub items: Vec<Item>,
    pub stop: Option<CheckStop>,
}

/// Brings a season from the ask before one to this ask, and tells its epoch.
pub fn advance(sheet: &Sheet, asks: &Asks, season: &mut Season, ask: usize) -> u32
    requires asks { AreAsks sheet.now asks.now }
    requires in_range { ask < length asks.now.epochs.items }
    requires before { season.old ≡ season_before sheet.now asks.now ask }
    requires league { IsLeague sheet.now season.old }
    ensures epoch { result ≡ get_or asks.now.epochs.items ask 0 }
    ensures at { season.new ≡ season_at sheet.now asks.now ask }
    ensures league { IsLeague sheet.now season.new }
{
    let from = epoch_before(asks, ask);
    let to = epoch_at(asks, ask);
    play(
        sheet,
        season,
        asks.log.as_slice(),
        from as usize,
        to as usize,
    );
    to
}

/// The season of the ask before one, or the season of no event.
pub fn season_before(
    alloc: Global,
    sheet: &Sheet,
    asks: &Asks,
    ask: usize,
) -> Result<Season, OutOfMemory>
    requires asks { AreAsks sheet.now asks.now }
    requires in_range { ask ≤ length asks.now.epochs.items }
    ensures at { IfOk result (λ season. season ≡ cuts.season_before sheet.now asks.now ask) }
    ensures league { IfOk result (λ season. IsLeague sheet.now season) }
{
    let mut season = Season::unplayed(alloc, sheet.clubs.len(), sheet.fixtures.len())?;
    let epoch = epoch_before(asks, ask);
    play(sheet, &mut season, asks.log.as_slice(), 0, epoch as usize);
    Ok(season)
}

// Brings a season from one epoch of a log to a later one.
fn play(sheet: &Sheet, season: &mut Season, log: &[Event], from: usize, to: usize)
    requires league { IsLeague sheet.now season.old }
    requires events { AreEventsOf sheet.now log.now }
    requires at { season.old ≡ season_after sheet.now (take from log.now) }
    requires order { from ≤ to }
    requires within { to ≤ length log.now }
    ensures at { season.new ≡ season_after sheet.now (take to log.now) }
    ensures league { IsLeague sheet.now season.new }
{
    for at in from..to {
        season.apply(&log[at]);
    }
}

/// The epoch of the ask at a position.
pub fn epoch_at(asks: &Asks, ask: usize) -> u32
    requires { ask < length asks.now.epochs.items }
    ensures { result ≡ get_or asks.now.epochs.items ask 0 }
{
    asks.epochs[ask]
}

// The epoch of the ask before one, or 0.
fn epoch_before(asks: &Asks, ask: usize) -> u32
    requires { ask ≤ length asks.now.epochs.items }
    ensures { result ≡ cuts.epoch_before asks.now ask }
{
    if ask == 0 { 0 } else { asks.epochs[ask - 1] }
}
