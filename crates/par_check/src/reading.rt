//! The reading of a report from a place on.

ghost use Rattle.std.specs.Prelude.{◌≡◌, ◌<◌, ◌≤◌, ◌^◌, ◌∷◌, [], IfOk, get_or, length};
ghost use Rattle.league_core.specs.game.Seasons.{IsLeague};
ghost use Rattle.league_core.specs.game.Sheets.{IsWithinLimits};
ghost use Rattle.cert_check.specs.ExpectedItems.{ask_row};
ghost use Rattle.cert_check.specs.Machine.{part_of_ask};
ghost use Rattle.cert_check.specs.inside.Calls.{GoesOverAll};
ghost use Rattle.par_check.specs.Cuts.{season_at};
ghost use Rattle.par_check.specs.Places.{GoesOverRows, IsBehindAsk, IsIn, IsWholeReport};
ghost use Rattle.par_check.specs.Places.{ReadsWhole, place_before};

use crate::asks::{advance, season_before};
use crate::item_rows::{row_at, rows_in_answer};
use crate::places::{Place, Run, RunRead, Whole, read_both};
use cert_check::{AskedPart, CheckStopAt, PartRead, Report};
use league_core::{Season, Sheet};

/// Reads a run. One that goes on behind the last ask is read to the end.
pub fn read_run(whole: &Whole, run: Run) -> Result<RunRead, CheckStopAt>
    requires whole { IsWholeReport whole.now }
    requires from { IsIn whole.now run.from }
    ensures reads { ReadsWhole whole.now run.from result }
    ensures all { length whole.now.asks.now.epochs.items ≤ run.until_ask → IfOk result
        (λ found. length whole.now.asks.now.epochs.items ≤ found.to.ask) }
{
    let mut season = season_before(whole.alloc, whole.sheet, whole.asks, run.from.ask)?;
    let mut reached = RunRead {
        to: run.from,
        unsettled: 0,
    };
    for ask in run.from.ask..whole.asks.epochs.len() {
        let epoch = advance(whole.sheet, whole.asks, &mut season, ask);
        match read_ask(whole, &season, epoch, run, reached.to) {
            Ok(found) => reached = read_both(reached, found),
            Err(stop) => return Err(stop),
        }
        if reached.to.ask == ask {
            return Ok(reached);
        }
    }
    Ok(reached)
}

// Reads on in the ask of a place, as far as a run goes.
fn read_ask(
    whole: &Whole,
    season: &Season,
    epoch: u32,
    run: Run,
    at: Place,
) -> Result<RunRead, CheckStopAt>
    requires whole { IsWholeReport whole.now }
    requires at { IsIn whole.now at }
    requires in_range { at.ask < length whole.now.asks.now.epochs.items }
    requires season { season.now ≡ season_at whole.now.sheet.now whole.now.asks.now at.ask }
    requires epoch { epoch ≡ get_or whole.now.asks.now.epochs.items at.ask 0 }
    requires league { IsLeague whole.now.sheet.now season.now }
    ensures reads { ReadsWhole whole.now at result }
    ensures ask { IfOk result (λ found. IsBehindAsk at.ask run.until_ask found.to.ask) }
{
    let asked = AskedPart {
        kind: whole.asks.kind,
        epoch: u64::from(epoch),
    };
    let report = Report::new(whole.alloc, whole.sheet, season, asked, whole.lines)?;
    let until = last_row(whole.sheet, run, at);
    match read_rows(&report, at.row, until, at.next) {
        Ok(found) => Ok(RunRead {
            to: place_behind(whole.sheet, at.ask, until, found.next),
            unsettled: found.unsettled,
        }),
        Err(stop) => Err(stop),
    }
}

// The row before which a run ends in the ask of a place: behind the last if it goes on.
fn last_row(sheet: &Sheet, run: Run, at: Place) -> usize
    requires limits { IsWithinLimits sheet.now }
    requires row { at.row < length (part_of_ask sheet.now) }
    ensures order { at.row ≤ result }
    ensures within { result ≤ length (part_of_ask sheet.now) }
    ensures all { at.ask < run.until_ask → result ≡ length (part_of_ask sheet.now) }
{
    let rows = rows_in_answer(sheet) + 1;
    if at.ask < run.until_ask || run.until_row > rows {
        rows
    } else if run.until_row < at.row {
        at.row
    } else {
        run.until_row
    }
}

// The place before a row of an ask, or before the next ask if that was its last.
fn place_behind(sheet: &Sheet, ask: usize, row: usize, next: usize) -> Place
    requires limits { IsWithinLimits sheet.now }
    requires few { ask < 2 ^ 32 }
    ensures { result ≡ place_before (length (part_of_ask sheet.now)) ask row next }
{
    if row <= rows_in_answer(sheet) {
        Place { ask, row, next }
    } else {
        Place {
            ask: ask + 1,
            row: 0,
            next,
        }
    }
}

// Reads the rows of an answer from one up to before another.
fn read_rows(
    report: &Report,
    row: usize,
    until: usize,
    from: usize,
) -> Result<PartRead, CheckStopAt>
    requires room { from ≤ length report.now.tokens }
    requires few { length report.now.tokens < 2 ^ 32 }
    requires order { row ≤ until }
    requires within { until ≤ length (part_of_ask report.now.basis.sheet) }
    ensures { GoesOverRows report.now row until from result }
{
    let mut reached = PartRead {
        next: from,
        unsettled: 0,
    };
    for at in row..until {
        match read_row(report, at, reached.next) {
            Ok(found) => reached = reached.and(found),
            Err(stop) => return Err(stop),
        }
    }
    Ok(reached)
}

// Reads a row of an answer with what its word asks for.
fn read_row(report: &Report, row: usize, from: usize) -> Result<PartRead, CheckStopAt>
    requires room { from ≤ length report.now.tokens }
    requires in_range { row < length (part_of_ask report.now.basis.sheet) }
    ensures { GoesOverAll report.now from
        (get_or (part_of_ask report.now.basis.sheet) row ask_row ∷ []) result }
{
    if row == 0 {
        return read_own_row(report, from);
    }
    report.recall_invariant();
    let about = row_at(report.sheet(), row - 1);
    report.item(from, about.line, about.club)
}

// Reads the ask's own row.
fn read_own_row(report: &Report, from: usize) -> Result<PartRead, CheckStopAt>
    requires { from ≤ length report.now.tokens }
    ensures { GoesOverAll report.now from (ask_row ∷ []) result }
{
    match report.ask_row(from) {
        Ok(next) => Ok(PartRead { next, unsettled: 0 }),
        Err(stop) => Err(stop),
    }
}
