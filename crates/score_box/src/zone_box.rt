//! The box of a zone: what it leaves of each fixture, and the rivals that it marks.

ghost use Rattle.std.specs.Prelude.{◌≡◌, ◌↔◌, ◌<◌, ◌≤ℤ◌, pos, neg_ℤ, IsTrue, IfOk, [], length};
ghost use Rattle.std.specs.Prelude.{slice_index_or};
ghost use Rattle.std.specs.List.{All};
ghost use Rattle.league_core.specs.game.Sheets.{IsWithinLimits};
ghost use Rattle.league_core.specs.game.Seasons.{IsLeague, IsSeasonOf};
ghost use Rattle.league_core.specs.game.ClubSets.{clubs_in};
ghost use Rattle.league_core.specs.game.Limits.{most_points};
ghost use Rattle.league_core.specs.search.PointRanges.{least_points_of, most_points_of};
ghost use Rattle.league_core.specs.search.Zones.{is_zone_of, marked_before, marked_after};
ghost use Rattle.league_core.specs.search.Options.{options_in, has_score, has_finish, is_single};
ghost use Rattle.score_box.specs.inside.Cells.{IsCellOf, HasOneScore};
ghost use Rattle.score_box.specs.inside.Boxes.{IsSetOf};
ghost use Rattle.score_box.specs.inside.ZoneBoxViews.{HasFinish};
ghost use Rattle.score_box.specs.inside.Points.{most_taken_off};

mod halves;
mod looks;
mod path;

use crate::cell::Cell;
use crate::ends::Ends;
use crate::marks::Marks;
use crate::open_matches::OpenMatches;
use crate::played::Played;
use crate::points::PointRange;
use crate::set_points;
use crate::tables::Tables;
use crate::trail::Undo;
pub use halves::HalvesWithFinish;
use league_core::{ClubSet, Literal, OutOfMemory, Score, Season, Sheet, Zone};
use std::alloc::Global;
use std::marker::Model;

/// The options of a zone, one cell for each fixture, with the zone's marks. Contracts see the
/// sheet, the season and the literals that it was made from.
#[derive(Drop)]
pub struct ZoneBox<'a> {
    sheet: &'a Sheet,
    season: &'a Season,
    zone: Vec<Literal>,
    trail: Vec<Undo>,
    open_matches: OpenMatches,
    cells: Vec<Cell>,
    marks: Marks,
    ends: Ends,
    tables: Tables,
}

impl<'a> Model for ZoneBox<'a> {
    ghost use Rattle.score_box.specs.inside.ZoneBoxViews.{ZoneBoxView};

    ghost Value = { ZoneBoxView };

    ghost use Rattle.score_box.specs.inside.PlayedViews.{IsBoxOf};

    ghost view = { λ b. record {
      sheet = b.sheet.now;
      season = b.season.now;
      zone = b.zone.items;
    } };

    ghost invariant = { λ b. IsBoxOf
        (record { sheet = b.sheet.now; season = b.season.now; zone = b.zone.items })
        b.trail.items b.open_matches.numbers.items b.open_matches.sides.items b.cells.items
        b.marks.before b.marks.after b.ends b.tables.clubs.items b.tables.pairs.items };
}

impl<'a> ZoneBox<'a> {
    /// The box of a zone, over tables of its own.
    pub fn of(
        alloc: Global,
        sheet: &'a Sheet,
        season: &'a Season,
        zone: &Zone,
    ) -> Result<ZoneBox<'a>, OutOfMemory>
        requires league { IsLeague sheet.now season.now }
        requires zone { IsTrue (is_zone_of sheet.now zone.now.literals) }
        ensures { IfOk result (λ b. b ≡ record {
          sheet = sheet.now;
          season = season.now;
          zone = zone.now.literals;
        }) }
    {
        let played = Played::of(alloc, sheet, season)?;
        ZoneBox::over(alloc, &played, zone.literals.as_slice())
    }

    /// The box of a zone over the tables of its season: a copy of what they have, and one cell cut
    /// for each literal.
    pub fn over(
        alloc: Global,
        played: &Played<'a>,
        zone: &[Literal],
    ) -> Result<ZoneBox<'a>, OutOfMemory>
        requires { IsTrue (is_zone_of played.now.sheet zone.now) }
        ensures { IfOk result (λ b. b ≡ record {
          sheet = played.now.sheet;
          season = played.now.season;
          zone = zone.now;
        }) }
    {
        let mut zone_box = ZoneBox::start(alloc, played)?;
        zone_box.cut_all(zone)?;
        Ok(zone_box)
    }

    // The box of the zone without a literal.
    fn start(alloc: Global, played: &Played<'a>) -> Result<ZoneBox<'a>, OutOfMemory>
        ensures { IfOk result (λ b. b ≡ record {
          sheet = played.now.sheet;
          season = played.now.season;
          zone = [];
        }) }
    {
        let sheet = played.sheet();
        let season = played.season();
        let cells = Vec::from_slice(alloc, played.cells())?;
        let open_matches = played.open_matches().copy(alloc)?;
        let tables = played.tables().copy(alloc)?;
        Ok(ZoneBox {
            sheet,
            season,
            zone: Vec::new(alloc),
            trail: Vec::new(alloc),
            open_matches,
            cells,
            marks: Marks::none(),
            ends: played.ends(),
            tables,
        })
    }

    /// Each fixture has a score left.
    pub fn has_finish(&self) -> bool
        ensures { result ≡ has_finish self.now.sheet self.now.season self.now.zone }
    {
        self.ends.empty == 0
    }

    /// Each fixture has one score left.
    pub fn is_single(&self) -> bool
        ensures { result ≡ is_single self.now.sheet self.now.season self.now.zone }
    {
        have_one_score(&self.cells)
    }

    /// One of the scores that a fixture has left, if the zone has a finish. Fixtures count from 0.
    pub fn pick(&self, fixture: u16) -> Score
        requires in_range { fixture < length self.now.season.scores }
        requires has_finish { HasFinish self.now }
        ensures { IsTrue (has_score
            (slice_index_or (options_in self.now.sheet self.now.season self.now.zone) fixture [])
            result) }
    {
        self.cells[fixture as usize].first().unwrap()
    }

    /// The least and the most points that the clubs of a set can have together: match points less
    /// deductions, negative if the deductions exceed them. A walk over the clubs of the set, and
    /// one over the matches that are not played.
    #[inline(always)]
    pub fn points(&self, set: ClubSet) -> PointRange
        requires { HasFinish self.now }
        ensures least { result.least
            ≡ least_points_of self.now.sheet self.now.season self.now.zone (clubs_in set) }
        ensures most { result.most
            ≡ most_points_of self.now.sheet self.now.season self.now.zone (clubs_in set) }
        ensures in_order { result.least ≤ℤ result.most }
        ensures within { (neg_ℤ most_taken_off ≤ℤ result.least) × (result.most ≤ℤ most_points) }
    {
        let alone = set_points::alone(&self.ends, self.season.deductions(), set);
        let beyond = set_points::beyond(&self.open_matches, &self.cells, set);
        alone.with(beyond)
    }

    /// The least points that the clubs of a set can have together, deductions taken off.
    pub fn low_points(&self, set: ClubSet) -> i32
        requires { HasFinish self.now }
        ensures least { result
            ≡ least_points_of self.now.sheet self.now.season self.now.zone (clubs_in set) }
        ensures within { (neg_ℤ most_taken_off ≤ℤ result) × (result ≤ℤ most_points) }
    {
        self.points(set).least
    }

    /// The most points that the clubs of a set can have together, deductions taken off.
    pub fn high_points(&self, set: ClubSet) -> i32
        requires { HasFinish self.now }
        ensures most { result
            ≡ most_points_of self.now.sheet self.now.season self.now.zone (clubs_in set) }
        ensures within { (neg_ℤ most_taken_off ≤ℤ result) × (result ≤ℤ most_points) }
    {
        self.points(set).most
    }

    /// The rivals that the zone marks before the question's club.
    pub fn before(&self) -> ClubSet
        ensures { IsSetOf result (marked_before self.now.zone) }
    {
        self.marks.before
    }

    /// The rivals that the zone marks after the question's club.
    pub fn after(&self) -> ClubSet
        ensures { IsSetOf result (marked_after self.now.zone) }
    {
        self.marks.after
    }

    /// The sheet that the zone is of.
    pub fn sheet(&self) -> &Sheet
        ensures sheet { result.now ≡ self.now.sheet }
        ensures limits { IsWithinLimits result.now }
    {
        self.sheet
    }

    /// The season that the zone is of.
    pub fn season(&self) -> &Season
        ensures season { result.now ≡ self.now.season }
        ensures of_sheet { IsSeasonOf self.now.sheet result.now }
    {
        self.season
    }

    /// The scores that a fixture has left, perhaps none. Fixtures count from 0.
    pub fn cell(&self, fixture: u16) -> &Cell
        requires { fixture < length self.now.season.scores }
        ensures { IsCellOf result.now
            (slice_index_or (options_in self.now.sheet self.now.season self.now.zone) fixture []) }
    {
        &self.cells[fixture as usize]
    }
}

fn have_one_score(cells: &[Cell]) -> bool
    ensures { IsTrue result ↔ All HasOneScore cells.now }
{
    cells.iter().all(|cell| cell.is_single())
}
