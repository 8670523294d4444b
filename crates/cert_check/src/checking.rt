//! The part of one ask, and what is left after the last.

ghost use Rattle.std.specs.Prelude.{◌≡◌, ◌≤◌, ◌*◌, IsTrue, IfOk, length};
ghost use Rattle.league_core.specs.game.Seasons.{IsLeague};
ghost use Rattle.league_core.specs.game.Sheets.{clubs_of, is_line, IsWithinLimits};
ghost use Rattle.cert_check.specs.Machine.{rows_on_line, rows_of, part_of_ask};
ghost use Rattle.cert_check.specs.inside.Calls.{GoesOverAll, ChecksPart, ChecksEnd};
ghost use Rattle.cert_check.specs.Machine.{basis_of};
ghost use Rattle.line_tokens.specs.Tokens.{tokens_of};

use crate::expected::AskedPart;
use crate::item::PartRead;
use crate::report::Report;
use crate::stop::{Accepted, CheckStop, CheckStopAt};
use crate::stops::by_number;
use check_bounds::Trail;
use kept_lines::LineList;
use league_core::{Season, Sheet};
use line_tokens::{counts, token_at};
use std::alloc::Global;

/// Checks the lines from a position on, from 0, as the part of a report that answers one ask of a
/// season. `BadLine` and `NoProof` name the line at
/// which the reading stops, by its number in the input; `Short` and running out of memory name
/// none.
pub fn check(
    alloc: Global,
    sheet: &Sheet,
    season: &Season,
    asked: AskedPart,
    lines: &LineList,
    from: usize,
) -> Result<Accepted, CheckStop>
    requires league { IsLeague sheet.now season.now }
    requires room { from ≤ length lines.now }
    ensures { ChecksPart (basis_of asked.kind sheet.now season.now asked.epoch) lines.now from
        result }
{
    match part_from(alloc, sheet, season, asked, lines, from) {
        Ok(found) => Ok(Accepted {
            next: found.next,
            rows: row_count(sheet),
            unsettled: found.unsettled,
        }),
        Err(stop) => Err(by_number(stop, lines)),
    }
}

// Goes over the part; the report is dropped after it.
fn part_from(
    alloc: Global,
    sheet: &Sheet,
    season: &Season,
    asked: AskedPart,
    lines: &LineList,
    from: usize,
) -> Result<PartRead, CheckStopAt>
    requires league { IsLeague sheet.now season.now }
    requires room { from ≤ length lines.now }
    ensures { GoesOverAll (record {
      basis = basis_of asked.kind sheet.now season.now asked.epoch;
      tokens = tokens_of lines.now;
    }) from (part_of_ask sheet.now) result }
{
    let report = Report {
        alloc,
        sheet,
        season,
        asked,
        lines,
        root: Trail::new(alloc, sheet, season)?,
    };
    report.part(from)
}

/// Whether nothing that counts is left from a position on, from 0; `BadLine` names the first line
/// that does, by its number in the input.
pub fn check_end(alloc: Global, lines: &LineList, from: usize) -> Result<(), CheckStop>
    requires { from ≤ length lines.now }
    ensures { ChecksEnd lines.now from result }
{
    for at in from..lines.len() {
        if counts(&token_at(alloc, lines, at)?) {
            return Err(CheckStop::BadLine {
                number: lines.number(at),
            });
        }
    }
    Ok(())
}

// One row for each line and each club.
fn row_count(sheet: &Sheet) -> u32
    requires { IsWithinLimits sheet.now }
    ensures { result ≡ length sheet.now.lines * length sheet.now.clubs }
{
    sheet.lines.len() as u32 * sheet.clubs.len() as u32
}

impl<'a> Report<'a> {
    /// The part of one ask: its row, and an item for each line and each club.
    pub fn part(&self, from: usize) -> Result<PartRead, CheckStopAt>
        requires { from ≤ length self.now.tokens }
        ensures { GoesOverAll self.now from (part_of_ask self.now.basis.sheet) result }
    {
        let at = self.ask_row(from)?;
        self.rows(at)
    }

    fn rows(&self, from: usize) -> Result<PartRead, CheckStopAt>
        requires { from ≤ length self.now.tokens }
        ensures { GoesOverAll self.now from (rows_of self.now.basis.sheet) result }
    {
        let mut found = PartRead {
            next: from,
            unsettled: 0,
        };
        for place in 0..self.sheet.lines.len() {
            let line = self.sheet.lines.as_slice()[place];
            found = found.and(self.line(found.next, line)?);
        }
        Ok(found)
    }

    fn line(&self, from: usize, line: u8) -> Result<PartRead, CheckStopAt>
        requires room { from ≤ length self.now.tokens }
        requires line { IsTrue (is_line (length self.now.basis.sheet.clubs) line) }
        ensures goes { GoesOverAll self.now from
            (rows_on_line (clubs_of self.now.basis.sheet) line) result }
        ensures few { IfOk result
            (λ found. found.unsettled ≤ length self.now.basis.sheet.clubs) }
    {
        let mut found = PartRead {
            next: from,
            unsettled: 0,
        };
        for club in 0..self.clubs() {
            found = found.and(self.item(found.next, line, club)?);
        }
        Ok(found)
    }
}
