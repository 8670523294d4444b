//! What all matches of a club can come to in a box, in one walk over the fixtures.

ghost use Rattle.std.specs.Prelude.{◌<◌, List, length};
ghost use Rattle.league_core.specs.declared.season.Score.{Score};
ghost use Rattle.league_core.specs.game.Sums.{worth_to};
ghost use Rattle.league_core.specs.search.Options.{options_in};
ghost use Rattle.league_core.specs.search.PointRanges.{range_of};
ghost use Rattle.score_box.specs.inside.Cells.{IsCellOf};
ghost use Rattle.score_box.specs.inside.Totals.{worth_in};
ghost use Rattle.key_bounds.specs.inside.RowEnds.{AreEndsNear, EndsGrowBy, AreClubEnds};

use crate::outcomes::side_ends;
use crate::row_ends::RowEnds;
use league_core::Fixture;
use score_box::{Cell, ZoneBox};

/// The rows of a club, by its number from 0.
pub fn club_ends(zone_box: &ZoneBox, club: u8) -> RowEnds
    ensures { AreClubEnds zone_box.now.sheet.fixtures
        (options_in zone_box.now.sheet zone_box.now.season zone_box.now.zone) club result }
{
    let fixtures = zone_box.sheet().fixtures.as_slice();
    prove!(zone_box.season().scores().len() == fixtures.len());
    let mut sums = RowEnds::NONE;
    for i in 0..fixtures.len() {
        sums = with_match(&sums, club, fixtures[i], zone_box.cell(i as u16));
    }
    sums
}

// The rows with a match more, if the club plays in it.
fn with_match(sums: &RowEnds, club: u8, fixture: Fixture, cell: &Cell) -> RowEnds
    requires { AreEndsNear 1000000 sums.now }
    ensures { (options : List Score) → IsCellOf cell.now options
        → EndsGrowBy (λ column. range_of (worth_to (worth_in column) club fixture) options)
        sums.now result }
{
    if fixture.home == club {
        sums.plus(&side_ends(cell, false))
    } else if fixture.away == club {
        sums.plus(&side_ends(cell, true))
    } else {
        *sums
    }
}
