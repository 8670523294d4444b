//! A report by the entries of a feed.

ghost use Rattle.std.specs.Prelude.{◌≡◌, ◌≤◌, All, IfOk, drop, length};
ghost use Rattle.league_core.specs.game.Sheets.{IsWithinLimits};
ghost use Rattle.port_core.specs.Contents.{input_limit};
ghost use Rattle.cert_check.specs.Outcomes.{first_progress, outcome_at_end, outcome_from};
ghost use Rattle.cert_check.specs.inside.InputCalls.{IsEntryOf, report_read};
ghost use Rattle.par_check.specs.FeedAsks.{standing_at_end};

use crate::feed_asks::asks_of;
use crate::report_check::check_all;
use cert_check::{Accepted, CheckOutcome, ReportKind, ReportLines, check_end, refused_by};
use league_core::{OutOfMemory, Sheet};
use result_log::Entry;
use std::alloc::Global;
use std::thread::Threads;

/// What the lines that are known come to as a report of this kind on the sheet, for a feed of these
/// entries.
pub fn report_outcome<R: Threads + Sync>(
    rt: &R,
    alloc: Global,
    kind: ReportKind,
    sheet: &Sheet,
    entries: &[Entry],
    told: &ReportLines,
) -> Result<CheckOutcome, OutOfMemory>
    requires limits { IsWithinLimits sheet.now }
    requires entries { All (IsEntryOf sheet.now) entries.now }
    requires few { length entries.now ≤ input_limit }
    ensures { IfOk result (λ outcome. outcome
        ≡ outcome_from (report_read kind sheet.now told.now) entries.now
        (first_progress sheet.now)) }
{
    let asks = asks_of(alloc, kind, sheet, entries)?;
    if told.lines.len() > u32::MAX as usize {
        return Err(OutOfMemory);
    }
    match check_all(rt, alloc, sheet, &asks, &told.lines) {
        Ok(accepted) => ended(alloc, told, accepted),
        Err(stop) => refused_by(stop, told.end),
    }
}

// Nothing that counts may be left behind the last answer.
fn ended(alloc: Global, told: &ReportLines, accepted: Accepted) -> Result<CheckOutcome, OutOfMemory>
    requires { accepted.next ≤ length told.now.lines }
    ensures { IfOk result (λ outcome. outcome
        ≡ outcome_at_end (standing_at_end accepted) (drop accepted.next told.now.lines)) }
{
    match check_end(alloc, &told.lines, accepted.next) {
        Ok(()) => Ok(CheckOutcome::Accepted {
            rows: u64::from(accepted.rows),
            unsettled: u64::from(accepted.unsettled),
        }),
        Err(stop) => refused_by(stop, told.end),
    }
}
