//! Examples below a base that are sought beside the search, by walks over the season.

ghost use Rattle.std.specs.Prelude.{◌≡◌, ◌<◌, IfOk, IsTrue, length};
ghost use Rattle.league_core.specs.declared.sheet.Sheet.{Sheet};
ghost use Rattle.league_core.specs.game.Finishes.{IsFinishOf};
ghost use Rattle.league_core.specs.game.Seasons.{IsSeasonOf};
ghost use Rattle.league_core.specs.search.Zones.{are_literals_true};
ghost use Rattle.what_if.specs.inside.SeasonParts.{IsFoundBelow, IsMemberAnyhow};

use crate::literals::are_true;
use example_finish::try_example;
use league_core::{
    Claim, Event, Finish, Fixture, Literal, OutOfMemory, Question, Score, Season, Sheet, Test,
};
use local_search::{walk, walk_from};
use score_box::Played;
use std::alloc::Global;
use tree_arena::Example;

/// What examples are sought by: the season, and an example of the question there.
#[derive(Clone, Copy)]
pub(crate) struct Hints<'a> {
    pub played: &'a Played<'a>,
    pub example: Option<&'a Example>,
}

impl<'a> Hints<'a> {
    /// An example that is a member of the base, where one is sought after so many units and found.
    /// With an example of the season it is looked at with another score of the base's match first,
    /// and walks begin there; without one there are walks for the season alone.
    pub fn found(
        &self,
        alloc: Global,
        question: &Question,
        base: &[Literal],
        units: u32,
    ) -> Result<Option<Example>, OutOfMemory>
        requires in_range { question.now.club < length self.now.played.now.sheet.clubs }
        ensures { IfOk result (IsFoundBelow self.now.played.now.sheet self.now.played.now.season
            question.now base.now) }
    {
        let Some(trials) = trials_at(units) else {
            return Ok(None);
        };
        match self.example {
            Some(example) if trials == 0 => self.looked(alloc, question, base, &example.finish),
            Some(example) => self.moved(alloc, question, base, &example.finish, trials),
            None if base.is_empty() && 0 < trials => {
                let open = self.played.unplayed().len().min(600) as u16;
                self.walked(alloc, question, base, season_trials(trials, open))
            }
            None => Ok(None),
        }
    }

    // The example of a walk over the season.
    fn walked(
        &self,
        alloc: Global,
        question: &Question,
        base: &[Literal],
        trials: u32,
    ) -> Result<Option<Example>, OutOfMemory>
        requires in_range { question.now.club < length self.now.played.now.sheet.clubs }
        ensures { IfOk result (IsFoundBelow self.now.played.now.sheet self.now.played.now.season
            question.now base.now) }
    {
        let season = self.played.season();
        match walk(alloc, self.played.sheet(), season, question, trials)? {
            Some((finish, lots)) if self.is_member(base, &finish) => {
                Ok(Some(Example { finish, lots }))
            }
            _ => Ok(None),
        }
    }

    // The example of a walk from a finish, over the season in which the base's match has a score of
    // the base.
    fn moved(
        &self,
        alloc: Global,
        question: &Question,
        base: &[Literal],
        from: &Finish,
        trials: u32,
    ) -> Result<Option<Example>, OutOfMemory>
        requires in_range { question.now.club < length self.now.played.now.sheet.clubs }
        ensures { IfOk result (IsFoundBelow self.now.played.now.sheet self.now.played.now.season
            question.now base.now) }
    {
        let sheet = self.played.sheet();
        let start = begun(alloc, sheet, self.played.season(), question, base)?;
        match walk_from(alloc, sheet, &start, question, from, trials)? {
            Some((finish, lots)) if self.is_member(base, &finish) => {
                Ok(Some(Example { finish, lots }))
            }
            _ => Ok(None),
        }
    }

    // A finish of the season with a score of the base for the base's match, where it is an example.
    fn looked(
        &self,
        alloc: Global,
        question: &Question,
        base: &[Literal],
        from: &Finish,
    ) -> Result<Option<Example>, OutOfMemory>
        requires in_range { question.now.club < length self.now.played.now.sheet.clubs }
        ensures { IfOk result (IsFoundBelow self.now.played.now.sheet self.now.played.now.season
            question.now base.now) }
    {
        let (sheet, season) = (self.played.sheet(), self.played.season());
        if from.is_of(sheet, season) {
            let changed = begun(alloc, sheet, from.as_season(), question, base)?;
            if let Ok(finish) = Finish::of_season(changed) {
                return self.tried(alloc, question, base, finish);
            }
        }
        Ok(None)
    }

    // A finish with lots, where that is an example that is a member of the base.
    fn tried(
        &self,
        alloc: Global,
        question: &Question,
        base: &[Literal],
        finish: Finish,
    ) -> Result<Option<Example>, OutOfMemory>
        requires in_range { question.now.club < length self.now.played.now.sheet.clubs }
        ensures { IfOk result (IsFoundBelow self.now.played.now.sheet self.now.played.now.season
            question.now base.now) }
    {
        let (sheet, _season) = (self.played.sheet(), self.played.season());
        if self.is_member(base, &finish) {
            if let Some(lots) = try_example(alloc, sheet, question, &finish)? {
                return Ok(Some(Example { finish, lots }));
            }
        }
        Ok(None)
    }

    // The finish is one of the season, and makes the literals of the base true.
    fn is_member(&self, base: &[Literal], finish: &Finish) -> bool
        ensures { IsTrue result → IsMemberAnyhow self.now.played.now.sheet
            self.now.played.now.season base.now finish.now }
    {
        finish.is_of(self.played.sheet(), self.played.season())
            && are_true(base, finish.as_season())
    }
}

// The trials of a walk after so many units, where there is one: first none, which is to look at
// the example alone.
fn trials_at(units: u32) -> Option<u32> {
    match units {
        1 => Some(0),
        49 => Some(500),
        199 => Some(2000),
        _ => None,
    }
}

// The trials of a walk over the season, where so many would do and so many matches are open: a long
// walk comes later to examples where more are.
fn season_trials(trials: u32, open: u16) -> u32 {
    if trials < 2000 {
        trials
    } else {
        trials.max(u32::from(open) * 50 + 400)
    }
}

// The season with a score of the base's match that the base allows, if one of three is; otherwise
// as it is.
fn begun(
    alloc: Global,
    sheet: &Sheet,
    season: &Season,
    question: &Question,
    base: &[Literal],
) -> Result<Season, OutOfMemory>
    requires { IsSeasonOf sheet.now season.now }
    ensures { IfOk result (IsSeasonOf sheet.now) }
{
    let fixture = fixture_of(base);
    if usize::from(fixture) < sheet.fixtures.len() {
        let sides = sheet.fixtures.as_slice()[usize::from(fixture)];
        for score in scores_for(question, sides, sheet.goal_limit) {
            let changed = with_score(alloc, sheet, season, fixture, score)?;
            if are_true(base, &changed) {
                return Ok(changed);
            }
        }
    }
    season.copy(alloc)
}

// The season with this score of a fixture, where the score may be.
fn with_score(
    alloc: Global,
    sheet: &Sheet,
    season: &Season,
    fixture: u16,
    score: Score,
) -> Result<Season, OutOfMemory>
    requires of_sheet { IsSeasonOf sheet.now season.now }
    requires in_range { fixture < length sheet.now.fixtures }
    ensures { IfOk result (IsSeasonOf sheet.now) }
{
    let mut changed = season.copy(alloc)?;
    if score.home <= 99 && score.away <= 99 {
        changed.apply(&Event::Set { fixture, score });
    }
    Ok(changed)
}

// The fixture that the first literal is on; a number that no fixture has, where there is none.
fn fixture_of(base: &[Literal]) -> u16 {
    match base.first() {
        Some(literal) => fixture_of_test(literal.test),
        None => u16::MAX,
    }
}

fn fixture_of_test(test: Test) -> u16 {
    match test {
        Test::Home { fixture } => fixture,
        Test::Draw { fixture } => fixture,
        Test::HomeMost { fixture, .. } => fixture,
        Test::AwayMost { fixture, .. } => fixture,
        Test::Rival { .. } => u16::MAX,
    }
}

// A score of each outcome: narrow, or wide where that favours the claim for the question's club.
fn scores_for(question: &Question, sides: Fixture, limit: u8) -> [Score; 3] {
    let is_inside = question.claim == Claim::Inside;
    let (home, away) = if sides.home == question.club {
        (goals(is_inside, limit), goals(!is_inside, limit))
    } else if sides.away == question.club {
        (goals(!is_inside, limit), goals(is_inside, limit))
    } else {
        (1, 1)
    };
    [
        Score { home, away: 0 },
        Score { home: 0, away: 0 },
        Score { home: 0, away },
    ]
}

fn goals(is_wide: bool, limit: u8) -> u8 {
    if is_wide { limit } else { 1 }
}
