//! One step of a feed that may ask what if.

ghost use Rattle.std.specs.Prelude.{◌≡◌, ◌≤◌, IfOk, length};
ghost use Rattle.league_core.specs.game.Seasons.{IsSeasonOf};
ghost use Rattle.result_log.specs.Records.{fixture_in, value_unless};
ghost use Rattle.result_log.specs.inside.Readings.{MayBeTold};
ghost use Rattle.what_if.specs.Steps.{forget, step_of, when_tests};

use fixture_sheet::Fields;
use league_core::{Season, Sheet};
use result_log::{Entry, FeedFault, Reading, SeasonSoFar, fixture_of, read_event};

/// One step of a feed that may ask what if.
#[derive(Clone, Copy, PartialEq, Eq, Debug)]
pub enum Step {
    /// An entry, as in every feed that no proofs follow.
    Entry(Entry),
    /// `when,F`: what would each outcome of this fixture decide? It counts from 0 here.
    When(u16),
}

/// Each record is a step.
#[derive(Clone, Copy)]
pub struct Steps;

impl Reading for Steps {
    type Parsed = Step;

    ghost tells = { λ reading sheet season events fields. step_of sheet season events fields };

    ghost entry = { λ told. forget told };

    fn read(&self, at: &SeasonSoFar<'_>, fields: &Fields) -> Result<Step, FeedFault> {
        read_step(at.sheet, at.season, at.events, fields)
    }

    fn as_entry(told: Step) -> Entry {
        match told {
            Step::Entry(entry) => entry,
            Step::When(_) => Entry::Ask,
        }
    }

    fn end() -> Step {
        Step::Entry(Entry::End)
    }
}

// The step that a record is, or the first refusal.
fn read_step(
    sheet: &Sheet,
    season: &Season,
    events: u64,
    fields: &Fields,
) -> Result<Step, FeedFault>
    requires of_sheet { IsSeasonOf sheet.now season.now }
    requires clubs { length sheet.now.clubs ≤ 255 }
    requires numbers { length sheet.now.fixtures ≤ 65535 }
    ensures value { result ≡ step_of sheet.now season.now events fields.now }
    ensures may_be { IfOk result (λ step. MayBeTold season.now events (forget step)) }
{
    if fields.is_kind(b"when") {
        return read_when(sheet, season, fields);
    }
    match read_event(sheet, season, events, fields, false) {
        Ok(entry) => Ok(Step::Entry(entry)),
        Err(fault) => Err(fault),
    }
}

// `when,F`.
fn read_when(sheet: &Sheet, season: &Season, fields: &Fields) -> Result<Step, FeedFault>
    requires of_sheet { IsSeasonOf sheet.now season.now }
    requires numbers { length sheet.now.fixtures ≤ 65535 }
    ensures value { result ≡ value_unless (when_tests sheet.now season.now fields.now)
        (Step.When (fixture_in fields.now)) }
    ensures asks { IfOk result (λ step. forget step ≡ Entry.Ask) }
{
    if fields.len() != 2 {
        return Err(FeedFault::WrongWidth);
    }
    let Some(fixture) = fixture_of(sheet, fields) else {
        return Err(FeedFault::UnknownFixture);
    };
    if season.score(fixture).is_some() {
        return Err(FeedFault::AlreadyPlayed);
    }
    Ok(Step::When(fixture))
}
