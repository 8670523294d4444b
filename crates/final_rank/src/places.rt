//! The place of a club: with given lots, and the least and the greatest over all lots.
//!
//! The clubs around the club are found once, and then each club is counted by its lot.

ghost use Rattle.std.specs.Prelude.{◌≡◌, ◌<◌, ◌==◌, ◌&&◌, ◌||◌, nat_lt, position, length, IfOk};
ghost use Rattle.std.specs.Prelude.{IsTrue};
ghost use Rattle.league_core.specs.game.Seasons.{IsLeague};
ghost use Rattle.league_core.specs.game.Sums.{has_club};
ghost use Rattle.league_core.specs.game.ClubSets.{clubs_in};
ghost use Rattle.league_core.specs.game.Ranking.{are_lots, lot_of, place_of};
ghost use Rattle.final_rank.specs.Places.{IsBestPlace, IsWorstPlace};

use crate::around::{Around, stand};
use league_core::{Lots, OutOfMemory, Season, Sheet};
use std::alloc::Global;

/// The club's place with these lots, from 1.
pub fn place(
    alloc: Global,
    sheet: &Sheet,
    season: &Season,
    lots: &Lots,
    club: u8,
) -> Result<u8, OutOfMemory>
    requires league { IsLeague sheet.now season.now }
    requires drawn { IsTrue (are_lots (length sheet.now.clubs) lots.now) }
    requires in_range { club < length sheet.now.clubs }
    ensures { IfOk result (λ place. place ≡ place_of sheet.now season.now lots.now club) }
{
    let around = stand(alloc, sheet, season, club)?;
    let lot = lot_of(lots, club);
    let mut before = 0;
    for other in 0..sheet.clubs.len() as u8 {
        before += u8::from(is_before(around, lots, lot, other));
    }
    Ok(1 + before)
}

/// The club's least place over all lots, from 1: that with the club first in the lots.
pub fn best_place(
    alloc: Global,
    sheet: &Sheet,
    season: &Season,
    club: u8,
) -> Result<u8, OutOfMemory>
    requires league { IsLeague sheet.now season.now }
    requires in_range { club < length sheet.now.clubs }
    ensures { IfOk result (λ place. IsBestPlace sheet.now season.now club place) }
{
    let around = stand(alloc, sheet, season, club)?;
    Ok(around.span().best)
}

/// The club's greatest place over all lots, from 1: that with the club last in the lots.
pub fn worst_place(
    alloc: Global,
    sheet: &Sheet,
    season: &Season,
    club: u8,
) -> Result<u8, OutOfMemory>
    requires league { IsLeague sheet.now season.now }
    requires in_range { club < length sheet.now.clubs }
    ensures { IfOk result (λ place. IsWorstPlace sheet.now season.now club place) }
{
    let around = stand(alloc, sheet, season, club)?;
    Ok(around.span().worst)
}

// The other is ahead of the club, or level with it and earlier in the lots than this lot.
fn is_before(around: Around, lots: &Lots, lot: usize, other: u8) -> bool
    ensures { result ≡ (has_club (clubs_in around.ahead) other
        || (has_club (clubs_in around.level) other && nat_lt (lot_of lots.now other) lot)) }
{
    around.ahead.has(other) || around.level.has(other) && lot_of(lots, other) < lot
}

/// How many clubs are earlier in the lots.
pub fn lot_of(lots: &Lots, club: u8) -> usize
    ensures { result ≡ lot_of lots.now club }
{
    let order = lots.order();
    lot_in(order, club).unwrap_or(order.len())
}

fn lot_in(order: &[u8], club: u8) -> Option<usize>
    ensures { result ≡ position (λ drawn. drawn == club) order.now }
{
    order.iter().position(|drawn| *drawn == club)
}
