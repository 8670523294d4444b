//! What was played in a season, worked out once for many boxes.

ghost use Rattle.std.specs.Prelude.{◌≡◌, ◌<◌, IfOk, [], length};
ghost use Rattle.league_core.specs.search.Options.{options_in};
ghost use Rattle.league_core.specs.game.Sums.{sum_of, points_of};
ghost use Rattle.league_core.specs.game.Seasons.{IsLeague, IsSeasonOf};
ghost use Rattle.league_core.specs.game.Sheets.{IsWithinLimits};
ghost use Rattle.score_box.specs.inside.Boxes.{AreCellsOf};
ghost use Rattle.score_box.specs.inside.Ends.{AreEnds};
ghost use Rattle.score_box.specs.inside.Totals.{AreTables, AreTotals, AreTotalsNear};
ghost use Rattle.score_box.specs.inside.OpenSides.{AreSidesOf};
ghost use Rattle.score_box.specs.inside.Unplayed.{unplayed_in};

use crate::cell::Cell;
use crate::ends::Ends;
use crate::open_matches::OpenMatches;
use crate::season_cells::season_cells;
use crate::tables::Tables;
use crate::totals::Totals;
use league_core::{OutOfMemory, Season, Sheet};
use std::alloc::Global;
use std::marker::Model;

/// The tables of a season that boxes stand over. Contracts see the sheet and the season.
#[derive(Drop)]
pub struct Played<'a> {
    sheet: &'a Sheet,
    season: &'a Season,
    cells: Vec<Cell>,
    open_matches: OpenMatches,
    ends: Ends,
    tables: Tables,
}

impl<'a> Model for Played<'a> {
    ghost use Rattle.score_box.specs.inside.PlayedViews.{PlayedView};

    ghost Value = { PlayedView };

    ghost use Rattle.score_box.specs.inside.PlayedViews.{ArePlayed};

    ghost view = { λ p. record { sheet = p.sheet.now; season = p.season.now } };

    ghost invariant = { λ p. ArePlayed (record { sheet = p.sheet.now; season = p.season.now })
        p.cells.items p.open_matches.numbers.items p.open_matches.sides.items p.ends
        p.tables.clubs.items p.tables.pairs.items };
}

impl<'a> Played<'a> {
    /// The tables of a season, in a few walks over its fixtures.
    pub fn of(
        alloc: Global,
        sheet: &'a Sheet,
        season: &'a Season,
    ) -> Result<Played<'a>, OutOfMemory>
        requires { IsLeague sheet.now season.now }
        ensures { IfOk result (λ p. p ≡ record { sheet = sheet.now; season = season.now }) }
    {
        let cells = season_cells(alloc, season.scores(), sheet.goal_limit)?;
        let fixtures = sheet.fixtures.as_slice();
        let open_matches = OpenMatches::of(alloc, fixtures, season.scores())?;
        let tables = Tables::of(alloc, fixtures, season.scores())?;
        let ends = Ends::of(sheet, &cells, &open_matches.numbers, &tables);
        Ok(Played {
            sheet,
            season,
            cells,
            open_matches,
            ends,
            tables,
        })
    }

    /// The sheet that these are tables of.
    pub fn sheet(&self) -> &'a Sheet
        ensures sheet { result.now ≡ self.now.sheet }
        ensures limits { IsWithinLimits result.now }
    {
        self.sheet
    }

    /// The season that these are tables of.
    pub fn season(&self) -> &'a Season
        ensures season { result.now ≡ self.now.season }
        ensures of_sheet { IsSeasonOf self.now.sheet result.now }
    {
        self.season
    }

    /// The fixtures that are not played, by their numbers from 0, in order.
    pub fn unplayed(&self) -> &[u16]
        ensures { result.now ≡ unplayed_in self.now.season.scores }
    {
        self.open_matches.numbers.as_slice()
    }

    /// The matches that are not played.
    pub(crate) fn open_matches(&self) -> &OpenMatches
        ensures numbers { result.now.numbers.items ≡ unplayed_in self.now.season.scores }
        ensures sides { AreSidesOf self.now.sheet.fixtures result.now.numbers.items
            result.now.sides.items }
    {
        &self.open_matches
    }

    /// The cells of the zone without a literal.
    pub(crate) fn cells(&self) -> &[Cell]
        ensures { AreCellsOf result.now (options_in self.now.sheet self.now.season []) }
    {
        self.cells.as_slice()
    }

    /// What a club's played matches add up to. Clubs count from 0; deductions do not count.
    pub fn totals(&self, club: u8) -> Totals
        requires in_range { club < length self.now.sheet.clubs }
        ensures sums { AreTotals
            (λ worth. sum_of worth self.now.sheet self.now.season club) result }
        ensures near { AreTotalsNear 153000 result }
    {
        self.tables.of_club(club)
    }

    /// A club's points from its played matches, less what is taken off: perhaps negative. Clubs
    /// count from 0.
    pub fn points_so_far(&self, club: u8) -> i32
        requires in_range { club < length self.now.sheet.clubs }
        ensures { result ≡ points_of self.now.sheet self.now.season club }
    {
        self.totals(club).points - i32::from(self.season.deducted(club))
    }

    /// The tables of what was played.
    pub(crate) fn tables(&self) -> &Tables
        ensures { AreTables self.now.sheet.fixtures self.now.season.scores result.now.clubs.items
            result.now.pairs.items }
    {
        &self.tables
    }

    /// The ends of these cells.
    pub(crate) fn ends(&self) -> Ends
        ensures { AreEnds self.now.sheet.fixtures (options_in self.now.sheet self.now.season [])
            result }
    {
        self.ends
    }
}
