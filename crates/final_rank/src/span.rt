//! The places that a season leaves each club, whatever the lots.

ghost use Rattle.std.specs.Prelude.{◌≡◌, ◌<◌, ℕ, length, IfOk};
ghost use Rattle.league_core.specs.declared.sheet.Sheet.{Sheet};
ghost use Rattle.league_core.specs.game.Results.{Results};
ghost use Rattle.league_core.specs.game.Seasons.{IsLeague};
ghost use Rattle.league_core.specs.game.Sheets.{IsWithinLimits, clubs_of};
ghost use Rattle.league_core.specs.inside.LotsFor.{order_without_lots};
ghost use Rattle.final_rank.specs.inside.Around.{IsAround};
ghost use Rattle.final_rank.specs.inside.Spans.{span_of, spans_of};

use crate::around::Around;
use crate::blocks::blocks;
use league_core::{OutOfMemory, Season, Sheet};
use std::alloc::Global;

/// A club's least and greatest place over all drawings of lots, from 1.
#[derive(Clone, Copy, Debug, PartialEq, Eq)]
pub struct PlaceRange {
    pub best: u8,
    pub worst: u8,
}

impl Around {
    /// The places of the club that these are around.
    pub fn span(self) -> PlaceRange
        ensures { (sheet : Sheet) (season : Results) (club : ℕ)
            → IsWithinLimits sheet → club < length sheet.clubs
            → IsAround (order_without_lots sheet season) (clubs_of sheet) club self
            → result ≡ span_of sheet season club }
    {
        PlaceRange {
            best: 1 + self.ahead.len(),
            worst: self.ahead.union(self.level).len(),
        }
    }
}

/// The spans of all clubs in this season, in the sheet's order: the clubs are put in blocks once.
pub fn spans(alloc: Global, sheet: &Sheet, season: &Season) -> Result<Vec<PlaceRange>, OutOfMemory>
    requires league { IsLeague sheet.now season.now }
    ensures { IfOk result (λ found. found.items ≡ spans_of sheet.now season.now) }
{
    let blocks = blocks(alloc, sheet, season)?;
    let mut found = Vec::new(alloc);
    for club in 0..sheet.clubs.len() as u8 {
        let around = Around::of(&blocks, club);
        found.push(around.span())?;
    }
    Ok(found)
}
