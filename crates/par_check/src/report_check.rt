//! A whole report checked, ask after ask or with its items side by side.

ghost use Rattle.std.specs.Prelude.{◌≡◌, ◌<◌, ◌≤◌, ◌^◌, ℕ, Ok, Err, length};
ghost use Rattle.league_core.specs.game.Sheets.{IsWithinLimits};
ghost use Rattle.cert_check.specs.LineGrammars.{Ending, whole_at};
ghost use Rattle.par_check.specs.Cuts.{AreAsks};
ghost use Rattle.par_check.specs.Checked.{AnswersSo, ending_in};
ghost use Rattle.par_check.specs.Checked.{first_stop_in, rows_in};
ghost use Rattle.par_check.specs.Places.{ReadsToEnd, IsWholeReport, ReadsWhole};

use crate::asks::Asks;
use crate::item_rows::rows_in_answer;
use crate::places::{Place, RunRead, Whole, read_both};
use crate::reading::read_run;
use crate::runs::last_run;
use crate::side_by_side::read_together;
use cert_check::{Accepted, CheckStop, CheckStopAt, PartRead, by_number};
use kept_lines::LineList;
use league_core::Sheet;
use rayon::current_num_threads;
use std::alloc::Global;
use std::thread::Threads;

// A report with fewer lines is checked on one thread: starting the others would take longer.
const FEWEST_LINES: usize = 2_000;

/// Checks the answers to all asks. It says what `cert_check::check` says of one after another, and
/// that is the first stop: the first line that is no proof of any item, else where the grammar
/// stops.
pub fn check_all<R: Threads + Sync>(
    rt: &R,
    alloc: Global,
    sheet: &Sheet,
    asks: &Asks,
    lines: &LineList,
) -> Result<Accepted, CheckStop>
    requires asks { AreAsks sheet.now asks.now }
    requires few { length lines.now < 2 ^ 32 }
    ensures same { AnswersSo lines.now (rows_in sheet.now asks.now)
        (ending_in sheet.now asks.now lines.now) result }
    ensures first { AnswersSo lines.now (rows_in sheet.now asks.now)
        (first_stop_in sheet.now asks.now lines.now) result }
{
    let whole = Whole {
        alloc,
        sheet,
        asks,
        lines,
    };
    match read_whole(rt, &whole) {
        Ok(found) => accepted(sheet, asks, lines, found),
        Err(stop) => Err(by_number(stop, lines)),
    }
}

// The answers to all asks, on one thread or on several.
fn read_whole<R: Threads + Sync>(rt: &R, whole: &Whole) -> Result<PartRead, CheckStopAt>
    requires { IsWholeReport whole.now }
    ensures { ReadsToEnd (length whole.now.lines.now)
        (ending_in whole.now.sheet.now whole.now.asks.now whole.now.lines.now) result }
{
    let begin = Place {
        ask: 0,
        row: 0,
        next: 0,
    };
    let processors = current_num_threads(rt);
    if processors < 2 || whole.lines.len() < FEWEST_LINES {
        let none = RunRead {
            to: begin,
            unsettled: 0,
        };
        read_rest(whole, none)
    } else {
        match read_together(rt, whole, processors, begin) {
            Ok(reached) => read_rest(whole, reached),
            Err(stop) => Err(stop),
        }
    }
}

// What is left behind the place that was reached.
fn read_rest(whole: &Whole, reached: RunRead) -> Result<PartRead, CheckStopAt>
    requires whole { IsWholeReport whole.now }
    requires reached { ReadsWhole whole.now (record { ask = 0; row = 0; next = 0 }) (Ok reached) }
    ensures { ReadsToEnd (length whole.now.lines.now)
        (ending_in whole.now.sheet.now whole.now.asks.now whole.now.lines.now) result }
{
    match read_run(whole, last_run(whole, reached.to)) {
        Ok(found) => {
            let both = read_both(reached, found);
            Ok(PartRead {
                next: both.to.next,
                unsettled: both.unsettled,
            })
        }
        Err(stop) => Err(stop),
    }
}

// The report is whole.
fn accepted(
    sheet: &Sheet,
    asks: &Asks,
    lines: &LineList,
    found: PartRead,
) -> Result<Accepted, CheckStop>
    requires limits { IsWithinLimits sheet.now }
    requires few { length asks.now.epochs.items < 2 ^ 32 }
    requires within { found.next ≤ length lines.now }
    ensures { (ending : Ending) → ending ≡ whole_at found.next found.unsettled
        → AnswersSo lines.now (rows_in sheet.now asks.now) ending result }
{
    let Some(rows) = asks.epochs.len().checked_mul(rows_in_answer(sheet)) else {
        return Err(CheckStop::OutOfMemory);
    };
    match u32::try_from(rows) {
        Ok(rows) => Ok(Accepted {
            next: found.next,
            rows,
            unsettled: found.unsettled,
        }),
        Err(_) => Err(CheckStop::OutOfMemory),
    }
}
