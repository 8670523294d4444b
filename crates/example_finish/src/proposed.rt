//! The proposed finish of a zone, looked at and not written out.

ghost use Rattle.std.specs.Prelude.{◌≡◌, ◌<◌, Some, None, length, slice_index_or};
ghost use Rattle.league_core.specs.game.Seasons.{IsSeasonOf};
ghost use Rattle.league_core.specs.game.Sheets.{IsWithinLimits};
ghost use Rattle.score_box.specs.inside.ZoneBoxViews.{HasFinish};
ghost use Rattle.score_box.specs.inside.Ends.{IsMatch};
ghost use Rattle.example_finish.specs.inside.FirstOutcomes.{HasOutcome};
ghost use Rattle.example_finish.specs.inside.ProposalViews.{sheet_asked, season_asked};
ghost use Rattle.example_finish.specs.inside.ProposalViews.{finish_asked};

use crate::outcome::{Outcome, first_outcome};
use crate::proposal::option_of;
use crate::wishes::{Wishes, is_wished};
use league_core::{Fixture, Question, Score, Season, Sheet};
use score_box::ZoneBox;
use std::marker::Model;

/// The proposed finish of a box's zone for a question. Contracts see both.
#[derive(Drop)]
pub struct Proposed<'a> {
    pub(crate) zone_box: &'a ZoneBox<'a>,
    question: &'a Question,
    wishes: Wishes,
    wished: [bool; 24],
}

impl<'a> Model for Proposed<'a> {
    ghost use Rattle.example_finish.specs.inside.ProposalViews.{ProposedView, IsProposalFor};

    ghost Value = { ProposedView };

    ghost view = { λ p. record { setting = p.zone_box.now; question = p.question.now } };

    ghost invariant = { λ p. IsProposalFor p.zone_box.now p.question.now p.wishes
        p.wished };
}

impl<'a> Proposed<'a> {
    pub fn of(zone_box: &'a ZoneBox<'a>, question: &'a Question) -> Proposed<'a>
        requires has_finish { HasFinish zone_box.now }
        requires of_sheet { question.now.club < length zone_box.now.sheet.clubs }
        ensures { result ≡ record { setting = zone_box.now; question = question.now } }
    {
        let wishes = Wishes::of(zone_box, question);
        Proposed {
            zone_box,
            question,
            wishes,
            wished: wishes.table(),
        }
    }

    /// The score that a fixture takes.
    pub fn score(&self, fixture: u16) -> Score
        requires { fixture < length (season_asked self.now).scores }
        ensures { slice_index_or (finish_asked self.now).scores fixture None ≡ Some result }
    {
        let _season = self.season();
        let sides = self.sides(fixture);
        option_of(self.zone_box, self.wishes, fixture, sides)
    }

    /// The outcome of the score that a fixture takes.
    pub fn outcome(&self, fixture: u16) -> Outcome
        requires { fixture < length (season_asked self.now).scores }
        ensures { HasOutcome (slice_index_or (finish_asked self.now).scores fixture None) result }
    {
        let _season = self.season();
        let sides = self.sides(fixture);
        let home = is_wished(&self.wished, sides.home);
        let away = is_wished(&self.wished, sides.away);
        let left = self.zone_box.outcomes_left(fixture);
        first_outcome(self.zone_box.cell(fixture), left, home, away)
    }

    /// The two sides of a fixture.
    pub fn sides(&self, fixture: u16) -> Fixture
        requires { fixture < length (season_asked self.now).scores }
        ensures sides { result ≡ slice_index_or (sheet_asked self.now).fixtures fixture
            (record { home = 0; away = 0 }) }
        ensures of_match { IsMatch result }
    {
        let _season = self.season();
        self.sheet().fixtures.as_slice()[fixture as usize]
    }

    pub fn zone_box(&self) -> &ZoneBox<'a>
        ensures { result.now ≡ self.now.setting }
    {
        self.zone_box
    }

    pub fn sheet(&self) -> &Sheet
        ensures sheet { result.now ≡ sheet_asked self.now }
        ensures limits { IsWithinLimits result.now }
    {
        self.zone_box.sheet()
    }

    pub fn season(&self) -> &Season
        ensures season { result.now ≡ season_asked self.now }
        ensures of_sheet { IsSeasonOf (sheet_asked self.now) result.now }
    {
        self.zone_box.season()
    }

    pub fn question(&self) -> &Question
        ensures value { result.now ≡ self.now.question }
        ensures of_sheet { result.now.club < length (sheet_asked self.now).clubs }
    {
        self.question
    }
}
