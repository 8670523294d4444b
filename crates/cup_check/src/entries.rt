//! A report on a cup by the entries of a feed.

ghost use Rattle.std.specs.Prelude.{◌≡◌, ◌≤◌, ◌+◌, ℕ, All, IfOk, drop, length};
ghost use Rattle.port_core.specs.Contents.{input_limit};
ghost use Rattle.cert_check.specs.Outcomes.{first_progress, outcome_at_end};
ghost use Rattle.cert_check.specs.inside.InputCalls.{IsEntryOf};
ghost use Rattle.cup_sheet.specs.Cups.{IsCup};
ghost use Rattle.cup_sheet.specs.CupFeeds.{joint_sheet};
ghost use Rattle.cup_check.specs.CupOutcomes.{cup_outcome_from};
ghost use Rattle.cup_check.specs.inside.CupInputCalls.{GoesOverCupEntry, IsProgressWithin};
ghost use Rattle.cup_check.specs.inside.CupInputCalls.{cup_report_read};

use crate::checking::check_cup;
use crate::progress::CupReportProgress;
use cert_check::{CheckOutcome, ReportLines, check_end, refused_by};
use cup_feed::seasons_of;
use cup_sheet::Cup;
use league_core::{OutOfMemory, Sheet};
use result_log::Entry;
use std::alloc::Global;

/// What the lines that are known come to as a report on the cup, for a feed of these entries over
/// the cup's joint sheet.
pub fn cup_report_outcome(
    alloc: Global,
    cup: &Cup,
    sheet: &Sheet,
    entries: &[Entry],
    told: &ReportLines,
) -> Result<CheckOutcome, OutOfMemory>
    requires cup { IsCup cup.now }
    requires of_cup { sheet.now ≡ joint_sheet cup.now }
    requires entries { All (IsEntryOf sheet.now) entries.now }
    requires few { length entries.now ≤ input_limit }
    ensures { IfOk result (λ outcome. outcome
        ≡ cup_outcome_from (cup_report_read cup.now told.now) entries.now
        (first_progress (joint_sheet cup.now))) }
{
    let mut standing = CupReportProgress::begin(alloc, sheet)?;
    for entry in entries {
        if let Some(outcome) = take_entry(alloc, cup, told, entry, &mut standing)? {
            return Ok(outcome);
        }
    }
    ended(alloc, told, &standing)
}

// Goes over one entry; what the report comes to, if that is known then.
fn take_entry(
    alloc: Global,
    cup: &Cup,
    told: &ReportLines,
    entry: &Entry,
    standing: &mut CupReportProgress,
) -> Result<Option<CheckOutcome>, OutOfMemory>
    requires cup { IsCup cup.now }
    requires entry { IsEntryOf (joint_sheet cup.now) entry.now }
    requires way { IsProgressWithin (joint_sheet cup.now) (length told.now.lines) input_limit
        standing.old }
    ensures goes { IfOk result (λ found.
        GoesOverCupEntry (cup_report_read cup.now told.now) standing.old standing.new entry.now
        found) }
    ensures way { (entries : ℕ)
        → IsProgressWithin (joint_sheet cup.now) (length told.now.lines) entries standing.old
        → IfOk result (λ _. IsProgressWithin (joint_sheet cup.now) (length told.now.lines)
        (entries + 1) standing.new) }
{
    match entry {
        Entry::Change(event) => {
            standing.season.apply(event);
            standing.epoch += 1;
            Ok(None)
        }
        Entry::Ask => take_part(alloc, cup, told, standing),
        Entry::Proofs => Ok(None),
        Entry::End => Ok(None),
    }
}

// Goes over the part of an ask.
fn take_part(
    alloc: Global,
    cup: &Cup,
    told: &ReportLines,
    standing: &mut CupReportProgress,
) -> Result<Option<CheckOutcome>, OutOfMemory>
    requires cup { IsCup cup.now }
    requires way { IsProgressWithin (joint_sheet cup.now) (length told.now.lines) input_limit
        standing.old }
    ensures goes { IfOk result (λ found.
        GoesOverCupEntry (cup_report_read cup.now told.now) standing.old standing.new Entry.Ask
        found) }
    ensures way { (entries : ℕ)
        → IsProgressWithin (joint_sheet cup.now) (length told.now.lines) entries standing.old
        → IfOk result (λ _. IsProgressWithin (joint_sheet cup.now) (length told.now.lines)
        (entries + 1) standing.new) }
{
    let seasons = seasons_of(alloc, cup, &standing.season)?;
    let (epoch, from) = (standing.epoch, standing.at);
    match check_cup(alloc, cup, seasons.as_slice(), epoch, &told.lines, from) {
        Ok(accepted) => {
            standing.at = accepted.next;
            standing.rows += u64::from(accepted.rows);
            standing.unsettled += u64::from(accepted.unsettled);
            Ok(None)
        }
        Err(stop) => Ok(Some(refused_by(stop, told.end)?)),
    }
}

// Nothing that counts may be left behind the last answer.
fn ended(
    alloc: Global,
    told: &ReportLines,
    standing: &CupReportProgress,
) -> Result<CheckOutcome, OutOfMemory>
    requires { standing.now.at ≤ length told.now.lines }
    ensures { IfOk result (λ outcome. outcome
        ≡ outcome_at_end standing.now (drop standing.now.at told.now.lines)) }
{
    match check_end(alloc, &told.lines, standing.at) {
        Ok(()) => Ok(CheckOutcome::Accepted {
            rows: standing.rows,
            unsettled: standing.unsettled,
        }),
        Err(stop) => refused_by(stop, told.end),
    }
}
