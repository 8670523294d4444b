//! The answer about one match: what each of its outcomes would decide, row by row.

ghost use Rattle.std.specs.Prelude.{◌≡◌, ◌<◌, ◌++◌, false, IfOk, None, length, slice_index_or};
ghost use Rattle.league_core.specs.game.Seasons.{IsLeague};
ghost use Rattle.cert_text.specs.Ranges.{is_in_range};
ghost use Rattle.cert_text.specs.Lines.{text_of_proof_line};
ghost use Rattle.answer_rows.specs.inside.ItemRanges.{AreInRange};
ghost use Rattle.answer_rows.specs.inside.Outputs.{CountsPut, Puts, PutsSomeText};
ghost use Rattle.answer_rows.specs.inside.Verdicts.{text_of_items};
ghost use Rattle.what_if.specs.Bases.{base_of};
ghost use Rattle.what_if.specs.Given.{AreVerdictsGiven};
ghost use Rattle.what_if.specs.WhenTexts.{IsOutcomeText, IsWhenText, when_row};
ghost use Rattle.what_if.specs.inside.GivenParts.{IsOpenMatch};

use crate::given::verdicts_by;
use crate::known_season::KnownSeason;
use crate::outcome::{Outcome, base_zone};
use crate::row::when_row;
use crate::season_part::season_parts;
use answer_rows::{OutputStop, Verdict, put_items, put_part};
use branch_rules::ZoneSolver;
use league_core::{OutOfMemory, Season, Sheet};
use port_core::Sink;
use score_box::Played;
use std::alloc::Global;

/// A match, by its number from 0, in a season that took so many events.
#[derive(Clone, Copy)]
struct OpenMatch {
    epoch: u64,
    fixture: u16,
}

/// Writes, for each way in which a match may end, a row that says so, and after it the verdicts
/// given that: a win of the home side first, then a draw, then a win of the away side. Fixtures
/// count from 0; `epoch` is how many events the season took. After a write fault a prefix of such a
/// text went out, and if memory runs out a prefix or nothing.
pub fn put_when<K: Sink>(
    alloc: Global,
    sheet: &Sheet,
    season: &Season,
    epoch: u64,
    fixture: u16,
    sink: &mut K,
) -> Result<(), OutputStop>
    requires league { IsLeague sheet.now season.now }
    requires in_range { fixture < length sheet.now.fixtures }
    requires unplayed { slice_index_or season.now.scores fixture None ≡ None }
    ensures text { PutsSomeText (IsWhenText sheet.now season.now epoch fixture)
        (K.holds sink.old) (K.holds sink.new) result }
    ensures counts { CountsPut (K.faults sink.old) (K.faults sink.new) result }
{
    match Played::of(alloc, sheet, season) {
        Ok(played) => put_played(alloc, &played, OpenMatch { epoch, fixture }, sink),
        Err(_) => Err(OutputStop::OutOfMemory),
    }
}

// The same, over the tables of the season.
fn put_played<K: Sink>(
    alloc: Global,
    played: &Played,
    about: OpenMatch,
    sink: &mut K,
) -> Result<(), OutputStop>
    requires { IsOpenMatch played.now.sheet played.now.season about.fixture }
    ensures text { PutsSomeText
        (IsWhenText played.now.sheet played.now.season about.epoch about.fixture)
        (K.holds sink.old) (K.holds sink.new) result }
    ensures counts { CountsPut (K.faults sink.old) (K.faults sink.new) result }
{
    match ZoneSolver::new(alloc, played) {
        Ok(mut solver) => put_by(alloc, played, &mut solver, about, sink),
        Err(_) => Err(OutputStop::OutOfMemory),
    }
}

// The same, by one worker: first on the questions about the season, so that no base is searched
// for what none of them has.
fn put_by<K: Sink>(
    alloc: Global,
    played: &Played,
    solver: &mut ZoneSolver,
    about: OpenMatch,
    sink: &mut K,
) -> Result<(), OutputStop>
    requires sheet { solver.old.sheet ≡ played.now.sheet }
    requires season { solver.old.season ≡ played.now.season }
    requires open_match { IsOpenMatch played.now.sheet played.now.season about.fixture }
    ensures text { PutsSomeText
        (IsWhenText played.now.sheet played.now.season about.epoch about.fixture)
        (K.holds sink.old) (K.holds sink.new) result }
    ensures counts { CountsPut (K.faults sink.old) (K.faults sink.new) result }
{
    match season_parts(alloc, played, solver) {
        Ok(parts) => {
            let stage = KnownSeason::new(played, parts);
            put_outcomes(alloc, &stage, solver, about, sink)
        }
        Err(_) => Err(OutputStop::OutOfMemory),
    }
}

// The same, by one worker for all outcomes. What is said of an outcome is written before the next
// one is worked on, so that no more of it is in memory than of an ask.
fn put_outcomes<K: Sink>(
    alloc: Global,
    stage: &KnownSeason,
    solver: &mut ZoneSolver,
    about: OpenMatch,
    sink: &mut K,
) -> Result<(), OutputStop>
    requires sheet { solver.old.sheet ≡ stage.now.sheet }
    requires season { solver.old.season ≡ stage.now.season }
    requires open_match { IsOpenMatch stage.now.sheet stage.now.season about.fixture }
    ensures text { PutsSomeText
        (IsWhenText stage.now.sheet stage.now.season about.epoch about.fixture)
        (K.holds sink.old) (K.holds sink.new) result }
    ensures counts { CountsPut (K.faults sink.old) (K.faults sink.new) result }
{
    let (_sheet, _season) = (stage.sheet(), stage.season());
    match put_outcome(alloc, stage, solver, about, Outcome::Home, sink) {
        Ok(()) => {}
        Err(stop) => return Err(stop),
    }
    match put_outcome(alloc, stage, solver, about, Outcome::Draw, sink) {
        Ok(()) => {}
        Err(stop) => return Err(stop),
    }
    put_outcome(alloc, stage, solver, about, Outcome::Away, sink)
}

// The row of an outcome, and the verdicts given that.
fn put_outcome<K: Sink>(
    alloc: Global,
    stage: &KnownSeason,
    solver: &mut ZoneSolver,
    about: OpenMatch,
    outcome: Outcome,
    sink: &mut K,
) -> Result<(), OutputStop>
    requires sheet { solver.old.sheet ≡ stage.now.sheet }
    requires season { solver.old.season ≡ stage.now.season }
    requires open_match { IsOpenMatch stage.now.sheet stage.now.season about.fixture }
    ensures text { PutsSomeText
        (IsOutcomeText stage.now.sheet stage.now.season about.epoch about.fixture outcome)
        (K.holds sink.old) (K.holds sink.new) result }
    ensures counts { CountsPut (K.faults sink.old) (K.faults sink.new) result }
    ensures same_sheet { solver.new.sheet ≡ solver.old.sheet }
    ensures same_season { solver.new.season ≡ solver.old.season }
{
    match verdicts_if(alloc, stage, solver, about.fixture, outcome) {
        Ok(found) => put_found(alloc, stage.sheet(), about, outcome, found.as_slice(), sink),
        Err(_) => Err(OutputStop::OutOfMemory),
    }
}

// The verdicts given that a match ends so.
fn verdicts_if(
    alloc: Global,
    stage: &KnownSeason,
    solver: &mut ZoneSolver,
    fixture: u16,
    outcome: Outcome,
) -> Result<Vec<Verdict>, OutOfMemory>
    requires sheet { solver.old.sheet ≡ stage.now.sheet }
    requires season { solver.old.season ≡ stage.now.season }
    requires open_match { IsOpenMatch stage.now.sheet stage.now.season fixture }
    ensures answer { IfOk result (λ found. AreVerdictsGiven stage.now.sheet stage.now.season
        (base_of fixture outcome) found.items) }
    ensures in_range { IfOk result (λ found. AreInRange is_in_range stage.now.sheet found.items) }
    ensures same_sheet { solver.new.sheet ≡ solver.old.sheet }
    ensures same_season { solver.new.season ≡ solver.old.season }
{
    let (_sheet, _season) = (stage.sheet(), stage.season());
    let base = base_zone(alloc, fixture, outcome)?;
    verdicts_by(alloc, stage, solver, base.literals.as_slice())
}

// The row of an outcome, and these verdicts.
fn put_found<K: Sink>(
    alloc: Global,
    sheet: &Sheet,
    about: OpenMatch,
    outcome: Outcome,
    verdicts: &[Verdict],
    sink: &mut K,
) -> Result<(), OutputStop>
    requires { AreInRange is_in_range sheet.now verdicts.now }
    ensures text { Puts
        (when_row about.epoch about.fixture outcome
        ++ text_of_items text_of_proof_line false sheet.now verdicts.now)
        (K.holds sink.old) (K.holds sink.new) result }
    ensures counts { CountsPut (K.faults sink.old) (K.faults sink.new) result }
{
    match put_row(alloc, about, outcome, sink) {
        Ok(()) => put_items(alloc, false, sheet, verdicts, sink),
        Err(stop) => Err(stop),
    }
}

fn put_row<K: Sink>(
    alloc: Global,
    about: OpenMatch,
    outcome: Outcome,
    sink: &mut K,
) -> Result<(), OutputStop>
    ensures text { Puts (when_row about.epoch about.fixture outcome)
        (K.holds sink.old) (K.holds sink.new) result }
    ensures counts { CountsPut (K.faults sink.old) (K.faults sink.new) result }
{
    match when_row(alloc, about.epoch, about.fixture, outcome) {
        Ok(row) => put_part(sink, row.as_slice()),
        Err(_) => Err(OutputStop::OutOfMemory),
    }
}
