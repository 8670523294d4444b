//! The way to a zone, from the whole season on: what it leaves of each fixture, and the rivals that
//! it marks. To go on by a literal, or back over one, costs the same however long the way is.

ghost use Rattle.std.specs.Prelude.{◌≡◌, ◌<◌, [], IsTrue, IfOk, OnOk, OnErr, IfSome, IfNone};
ghost use Rattle.std.specs.Prelude.{length};
ghost use Rattle.league_core.specs.game.Seasons.{IsLeague};
ghost use Rattle.league_core.specs.game.Questions.{IsQuestionOf};
ghost use Rattle.league_core.specs.search.Reasons.{has_reason};
ghost use Rattle.league_core.specs.search.Zones.{is_test_of, is_zone_of};
ghost use Rattle.club_keys.specs.inside.KeyEnds.{AreKeyEnds};
ghost use Rattle.league_core.specs.search.Options.{has_finish, options_in};
ghost use Rattle.check_bounds.specs.inside.Zones.{AreScoreDomainsOf};
ghost use Rattle.check_bounds.specs.inside.Trails.{root_of, farther, AreMarks};

use crate::cells::Cells;
use crate::key_ends::ends_over;
use crate::reasons::holds_over;
use crate::score_domain::ScoreDomain;
use crate::step::{Marks, Step, cut_by, undo};
use club_keys::KeyEnds;
use league_core::{Literal, OutOfMemory, Question, Reason, Season, Sheet};
use std::alloc::Global;
use std::marker::Model;

/// A zone of a season, literal by literal. Contracts see the season and the zone.
#[derive(Drop)]
pub struct Trail<'a> {
    season: &'a Season,
    cells: Cells<'a>,
    marks: Marks,
    steps: Vec<Step>,
}

impl<'a> Model for Trail<'a> {
    ghost use Rattle.check_bounds.specs.inside.Trails.{TrailView, zone_of, IsTrail};

    ghost Value = { TrailView };

    ghost view = { λ way. record {
      sheet = way.cells.sheet;
      season = way.season.now;
      zone = zone_of way.steps.items;
    } };

    ghost invariant = { λ way.
        IsTrail way.cells.sheet way.season.now way.cells.scopes way.marks way.steps.items };
}

impl<'a> Trail<'a> {
    /// The whole season.
    pub fn new(
        alloc: Global,
        sheet: &'a Sheet,
        season: &'a Season,
    ) -> Result<Trail<'a>, OutOfMemory>
        requires { IsLeague sheet.now season.now }
        ensures { IfOk result (λ way. way ≡ root_of sheet.now season.now) }
    {
        let cells = Cells::new(alloc, sheet, season)?;
        Ok(Trail {
            season,
            cells,
            marks: Marks::none(),
            steps: Vec::new(alloc),
        })
    }

    /// The same way once more: cheaper than a new one, since nothing is added up.
    pub fn copy(&self, alloc: Global) -> Result<Trail<'a>, OutOfMemory>
        ensures { IfOk result (λ way. way ≡ self.now) }
    {
        Ok(Trail {
            season: self.season,
            cells: self.cells.copy(alloc)?,
            marks: self.marks,
            steps: Vec::from_slice(alloc, self.steps.as_slice())?,
        })
    }

    /// Goes on by a literal. After a refusal the way is as before.
    pub fn go(&mut self, literal: Literal) -> Result<(), OutOfMemory>
        requires { IsTrue (is_test_of self.old.sheet literal.test) }
        ensures ok { OnOk result (self.new ≡ farther self.old literal) }
        ensures err { OnErr result (self.new ≡ self.old) }
    {
        self.steps.reserve(1)?;
        let marks = self.marks;
        let cut = cut_by(&mut self.cells, &literal);
        self.marks = marks.with(&literal);
        self.steps.push_reserved(Step {
            literal,
            cut,
            marks,
        });
        Ok(())
    }

    /// Goes back over the last literal, which it hands out; nothing if the way has none.
    pub fn back(&mut self) -> Option<Literal>
        ensures some { IfSome result (λ literal. self.old ≡ farther self.new literal) }
        ensures none { IfNone result ((self.old.zone ≡ []) × (self.new ≡ self.old)) }
    {
        match self.steps.pop() {
            Some(step) => {
                undo(&mut self.cells, step.cut);
                self.marks = step.marks;
                Some(step.literal)
            }
            None => None,
        }
    }

    /// Both ends of a club's key in the zone, in a few walks over the fixtures. Clubs count from 0.
    pub fn key_ends(&self, club: u8) -> KeyEnds
        requires { club < length self.now.sheet.clubs }
        ensures { AreKeyEnds self.now.sheet self.now.season self.now.zone club result }
    {
        ends_over(self.season, &self.cells, club)
    }

    /// Whether the reason holds in the zone, in a few walks over the fixtures.
    pub fn holds(&self, question: &Question, reason: Reason) -> bool
        requires { IsQuestionOf self.now.sheet question.now }
        ensures { result
            ≡ has_reason self.now.sheet self.now.season question.now self.now.zone reason }
    {
        holds_over(self.season, question, &self.cells, self.marks, reason)
    }

    /// Whether the zone has a finish: each fixture has a score left. Marks do not count.
    pub fn has_finish(&self) -> bool
        ensures { result ≡ has_finish self.now.sheet self.now.season self.now.zone }
    {
        self.cells.have_scores()
    }

    /// The sheet in which the way lies.
    pub fn sheet(&self) -> &Sheet
        ensures { result.now ≡ self.now.sheet }
    {
        self.cells.sheet()
    }

    /// The season in which it does.
    pub fn season(&self) -> &Season
        ensures value { result.now ≡ self.now.season }
        ensures league { IsLeague self.now.sheet self.now.season }
    {
        self.season
    }

    /// What the zone leaves of each fixture, in the order of the sheet.
    pub fn domains(&self) -> &[ScoreDomain]
        ensures { AreScoreDomainsOf result.now
            (options_in self.now.sheet self.now.season self.now.zone) }
    {
        self.cells.domains()
    }

    /// The rivals that the zone marks.
    pub fn marks(&self) -> Marks
        ensures { AreMarks result self.now.zone }
    {
        self.marks
    }
}

/// Whether the reason holds in the zone, in one walk over the literals and a few over the fixtures.
pub fn holds_in(
    alloc: Global,
    sheet: &Sheet,
    season: &Season,
    question: &Question,
    zone: &[Literal],
    reason: Reason,
) -> Result<bool, OutOfMemory>
    requires league { IsLeague sheet.now season.now }
    requires question { IsQuestionOf sheet.now question.now }
    requires zone { IsTrue (is_zone_of sheet.now zone.now) }
    ensures { IfOk result (λ holds.
        holds ≡ has_reason sheet.now season.now question.now zone.now reason) }
{
    let mut way = Trail::new(alloc, sheet, season)?;
    for literal in zone {
        way.go(*literal)?;
    }
    Ok(way.holds(question, reason))
}
