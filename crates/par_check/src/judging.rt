//! Items judged for themselves.

ghost use Rattle.std.specs.Prelude.{◌≡◌, ◌<◌, ◌≤◌, IfOk, IfSome, length, option_map};
ghost use Rattle.league_core.specs.game.Seasons.{IsLeague};
ghost use Rattle.kept_lines.specs.LineLists.{line_number_at};
ghost use Rattle.line_tokens.specs.Tokens.{tokens_of};
ghost use Rattle.cert_check.specs.Machine.{basis_of, rows_of};
ghost use Rattle.par_check.specs.Cuts.{unproved_of};

use crate::asks::Item;
use crate::item_rows::row_at;
use cert_check::{AskedPart, CheckStopAt, Report, ReportKind};
use kept_lines::LineList;
use league_core::{OutOfMemory, Season, Sheet};
use std::alloc::Global;

/// The number of an item's first line that fits and does not prove what it says, by the season of
/// its ask, in a report of this kind. The epoch of an ask is told by its own row alone.
pub fn judge_item(
    alloc: Global,
    kind: ReportKind,
    sheet: &Sheet,
    season: &Season,
    lines: &LineList,
    item: &Item,
) -> Result<Option<u64>, OutOfMemory>
    requires league { IsLeague sheet.now season.now }
    requires row { item.now.question_row < length (rows_of sheet.now) }
    requires room { item.now.from ≤ length lines.now }
    ensures { IfOk result (λ found. found ≡ option_map (line_number_at lines.now)
        (unproved_of (tokens_of lines.now) (basis_of kind sheet.now season.now 0)
        item.now)) }
{
    let asked = AskedPart { kind, epoch: 0 };
    let report = Report::new(alloc, sheet, season, asked, lines)?;
    match unproved_line(&report, *item)? {
        Some(at) => Ok(Some(lines.number(at))),
        None => Ok(None),
    }
}

/// The same by a report, and by the line's position.
pub fn unproved_line(report: &Report, item: Item) -> Result<Option<usize>, OutOfMemory>
    requires row { item.question_row < length (rows_of report.now.basis.sheet) }
    requires room { item.from ≤ length report.now.tokens }
    ensures found { IfOk result
        (λ found. found ≡ unproved_of report.now.tokens report.now.basis item) }
    ensures within { IfOk result
        (λ found. IfSome found (λ at. at < length report.now.tokens)) }
{
    report.recall_invariant();
    let row = row_at(report.sheet(), item.question_row);
    match report.item(item.from, row.line, row.club) {
        Ok(_) => Ok(None),
        Err(CheckStopAt::NoProof(at)) => Ok(Some(at)),
        Err(CheckStopAt::BadLine(_)) => Ok(None),
        Err(CheckStopAt::Short) => Ok(None),
        Err(CheckStopAt::OutOfMemory) => Err(OutOfMemory),
    }
}
