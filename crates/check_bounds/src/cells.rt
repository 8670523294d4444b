//! What a zone leaves of each fixture: its domain, its extremes, and the points that these give. A
//! literal changes one fixture alone, and so does going back over one; all others are kept.

ghost use Rattle.std.specs.Prelude.{◌≡◌, ◌<◌, ℕ, [], ◌∷◌, IfOk, length, set, slice_index_or};
ghost use Rattle.league_core.specs.game.Seasons.{IsLeague};
ghost use Rattle.league_core.specs.game.Sheets.{IsWithinLimits};
ghost use Rattle.league_core.specs.game.Sums.{worth_to};
ghost use Rattle.league_core.specs.game.ClubSets.{clubs_in};
ghost use Rattle.std.specs.List.{list_all};
ghost use Rattle.league_core.specs.search.Options.{options_in, has_option, has_one_outcome};
ghost use Rattle.league_core.specs.search.PointRanges.{points_range, points_together, range_from};
ghost use Rattle.check_bounds.specs.declared.score_domain.ScoreDomain.{ScoreDomain};
ghost use Rattle.check_bounds.specs.inside.Terms.{worth_by};
ghost use Rattle.check_bounds.specs.inside.IntRanges.{as_sum_range, range_at, IsRangeWithin};
ghost use Rattle.check_bounds.specs.inside.Tables.{IsTableOf};
ghost use Rattle.check_bounds.specs.inside.Walks.{AreRecordsOf, worth_near};
ghost use Rattle.check_bounds.specs.inside.Zones.{AreScoreDomainsOf};
ghost use Rattle.check_bounds.specs.inside.Cells.{FitScoreDomains};

use crate::extreme_scores::ExtremeScores;
use crate::int_range::IntRange;
use crate::open_counts::OpenCounts;
use crate::records::{Records, records_of};
use crate::score_domain::ScoreDomain;
use crate::sums::sums_in;
use crate::table::sums_of;
use crate::term::Measure;
use crate::won::{exchange_match, points_of_club, won_by};
use crate::zone::{all_extremes, copied_extremes, season_domains};
use league_core::{ClubSet, OutOfMemory, Season, Sheet};
use std::alloc::Global;
use std::marker::Model;

/// The fixtures of a sheet, cell by cell. Contracts see the sheet, the domains and the extremes.
#[derive(Drop)]
pub struct Cells<'a> {
    sheet: &'a Sheet,
    scopes: Vec<ScoreDomain>,
    corners: Vec<ExtremeScores>,
    won: [IntRange; 32],
    loose: OpenCounts,
}

impl<'a> Model for Cells<'a> {
    ghost use Rattle.check_bounds.specs.inside.Cells.{CellsView, AreCells};

    ghost Value = { CellsView };

    ghost view = { λ cells. record {
      sheet = cells.sheet.now;
      scopes = cells.scopes.items;
      corners = cells.corners.items;
    } };

    ghost invariant = { λ cells.
        AreCells cells.sheet.now cells.scopes.items cells.corners.items cells.won cells.loose };
}

impl<'a> Cells<'a> {
    /// Those of a season in which no literal is asked for.
    pub fn new(alloc: Global, sheet: &'a Sheet, season: &Season) -> Result<Cells<'a>, OutOfMemory>
        requires { IsLeague sheet.now season.now }
        ensures sheet { IfOk result (λ cells. cells.sheet ≡ sheet.now) }
        ensures scopes { IfOk result
            (λ cells. AreScoreDomainsOf cells.scopes (options_in sheet.now season.now [])) }
    {
        let scopes = season_domains(alloc, season.scores(), sheet.goal_limit)?;
        let corners = all_extremes(alloc, scopes.as_slice())?;
        let won = sums_of(
            sheet.fixtures.as_slice(),
            corners.as_slice(),
            Measure::Points,
        );
        let loose = OpenCounts::of(corners.as_slice());
        Ok(Cells {
            sheet,
            scopes,
            corners,
            won,
            loose,
        })
    }

    /// The same cells once more.
    pub fn copy(&self, alloc: Global) -> Result<Cells<'a>, OutOfMemory>
        ensures { IfOk result (λ cells. cells ≡ self.now) }
    {
        Ok(Cells {
            sheet: self.sheet,
            scopes: Vec::from_slice(alloc, self.scopes.as_slice())?,
            corners: copied_extremes(alloc, self.corners.as_slice())?,
            won: self.won,
            loose: self.loose,
        })
    }

    /// The sheet whose fixtures they are.
    pub fn sheet(&self) -> &Sheet
        ensures value { result.now ≡ self.now.sheet }
        ensures limits { IsWithinLimits result.now }
        ensures fit { FitScoreDomains self.now.scopes self.now.corners }
    {
        self.sheet
    }

    /// Each fixture has a score left.
    pub fn have_scores(&self) -> bool
        ensures value { result ≡ list_all has_option self.now.corners }
        ensures fit { FitScoreDomains self.now.scopes self.now.corners }
    {
        self.loose.without_score == 0
    }

    /// Each fixture has one outcome left.
    pub fn have_one_outcome(&self) -> bool
        ensures { result ≡ list_all has_one_outcome self.now.corners }
    {
        self.loose.undecided == 0
    }

    /// What is left of a fixture.
    pub fn scope(&self, fixture: u16) -> ScoreDomain
        requires { fixture < length self.now.scopes }
        ensures { (d : ScoreDomain) → result ≡ slice_index_or self.now.scopes fixture d }
    {
        self.scopes[fixture as usize]
    }

    /// What is left of each.
    pub fn domains(&self) -> &[ScoreDomain]
        ensures { result.now ≡ self.now.scopes }
    {
        self.scopes.as_slice()
    }

    /// Puts another domain in the place of a fixture's.
    pub fn put(&mut self, fixture: u16, scope: ScoreDomain)
        requires { fixture < length self.old.scopes }
        ensures sheet { self.new.sheet ≡ self.old.sheet }
        ensures scopes { self.new.scopes ≡ set self.old.scopes fixture scope }
    {
        let place = fixture as usize;
        let corners = ExtremeScores::of(&scope);
        let teams = self.sheet.fixtures.as_slice()[place];
        exchange_match(&mut self.won, teams, &self.corners[place], &corners);
        self.loose = self.loose.exchanged(&self.corners[place], &corners);
        self.scopes[place] = scope;
        self.corners[place] = corners;
    }

    /// The records of all clubs in a group.
    pub fn records(&self, group: ClubSet) -> Records
        ensures { AreRecordsOf (clubs_in group) self.now.sheet.fixtures self.now.corners result }
    {
        records_of(
            self.sheet.fixtures.as_slice(),
            self.corners.as_slice(),
            group,
        )
    }

    /// The sums of the clubs of a group by one measure, over all matches.
    pub fn sums_in(&self, kind: Measure, group: ClubSet) -> [IntRange; 32]
        ensures table { IsTableOf (worth_near (clubs_in group) (worth_by kind))
            self.now.sheet.fixtures self.now.corners result }
        ensures near { (club : ℕ) → IsRangeWithin 153000 (range_at result club) }
    {
        sums_in(
            self.sheet.fixtures.as_slice(),
            self.corners.as_slice(),
            kind,
            group,
        )
    }

    /// The sums of all clubs by one measure, over all matches.
    pub fn sums(&self, kind: Measure) -> [IntRange; 32]
        ensures { IsTableOf (worth_to (worth_by kind))
            self.now.sheet.fixtures self.now.corners result }
    {
        sums_of(
            self.sheet.fixtures.as_slice(),
            self.corners.as_slice(),
            kind,
        )
    }

    /// The match points of the clubs of a set together.
    pub fn won_by(&self, set: ClubSet) -> IntRange
        ensures points { as_sum_range result ≡ range_from (points_together (clubs_in set))
            self.now.sheet.fixtures self.now.corners }
        ensures near { IsRangeWithin 153000 result }
    {
        won_by(self.sheet.fixtures.as_slice(), self.corners.as_slice(), set)
    }

    /// The points of a club.
    pub fn points(&self, season: &Season, club: u8) -> IntRange
        requires { club < 32 }
        ensures range { as_sum_range result
            ≡ points_range self.now.sheet season.now self.now.corners (club ∷ []) }
        ensures near { IsRangeWithin 200000 result }
    {
        points_of_club(&self.won, season, club)
    }
}
