//! A report with what it is judged by, and the next of its lines that counts.

ghost use Rattle.std.specs.Prelude.{◌≡◌, ◌<◌, ◌≤◌, ◌+◌, ◌∷◌, length, drop, IfOk};
ghost use Rattle.league_core.specs.game.Seasons.{IsLeague};
ghost use Rattle.check_bounds.specs.inside.Trails.{root_of};
ghost use Rattle.line_tokens.specs.Tokens.{tokens_of};
ghost use Rattle.cert_check.specs.Machine.{basis_of};
ghost use Rattle.cert_check.specs.inside.Calls.{IsNextAt, FindsNext};

use crate::expected::{AskedPart, ReportKind};
use crate::stop::CheckStopAt;
use check_bounds::Trail;
use kept_lines::LineList;
use league_core::{OutOfMemory, Season, Sheet};
use line_tokens::{Token, counts, token_at};
use std::alloc::Global;
use std::marker::Model;

/// The lines of a report with the sheet, the season and the ask by which they are judged.
/// Contracts see what each line is.
#[derive(Drop)]
pub struct Report<'a> {
    pub alloc: Global,
    pub sheet: &'a Sheet,
    pub season: &'a Season,
    pub asked: AskedPart,
    pub lines: &'a LineList,
    /// The way to the whole season, of which each tree takes a copy.
    pub root: Trail<'a>,
}

impl<'a> Model for Report<'a> {
    ghost use Rattle.cert_check.specs.inside.Calls.{ReportView};
    ghost use Rattle.cert_check.specs.Machine.{basis_of};
    ghost use Rattle.line_tokens.specs.Tokens.{tokens_of};

    ghost Value = { ReportView };

    ghost use Rattle.cert_check.specs.inside.Calls.{IsJudgedFrom};

    ghost view = { λ report. record {
      basis = basis_of report.asked.kind report.sheet.now report.season.now report.asked.epoch;
      tokens = tokens_of report.lines.now;
    } };

    ghost invariant = { λ report. IsJudgedFrom report.sheet.now report.season.now report.root };
}

impl<'a> Report<'a> {
    /// The lines as a report on the season of a sheet.
    pub fn new(
        alloc: Global,
        sheet: &'a Sheet,
        season: &'a Season,
        asked: AskedPart,
        lines: &'a LineList,
    ) -> Result<Report<'a>, OutOfMemory>
        requires { IsLeague sheet.now season.now }
        ensures { IfOk result (λ report. report ≡ record {
          basis = basis_of asked.kind sheet.now season.now asked.epoch;
          tokens = tokens_of lines.now;
        }) }
    {
        Ok(Report {
            alloc,
            sheet,
            season,
            asked,
            lines,
            root: Trail::new(alloc, sheet, season)?,
        })
    }

    /// Hands on what the type keeps: a sheet within the limits, and a season of it.
    pub fn recall_invariant(&self)
        ensures { IsLeague self.now.basis.sheet self.now.basis.season }
    {
        let _sheet = self.sheet;
    }

    /// The way from which a tree begins: to the whole season.
    pub fn whole_season(&self) -> Result<Trail<'a>, OutOfMemory>
        ensures { IfOk result
            (λ way. way ≡ root_of self.now.basis.sheet self.now.basis.season) }
    {
        self.root.copy(self.alloc)
    }

    /// The sheet by which the lines are judged.
    pub fn sheet(&self) -> &Sheet
        ensures { result.now ≡ self.now.basis.sheet }
    {
        self.sheet
    }

    /// Of which kind the report is.
    pub fn kind(&self) -> ReportKind
        ensures { result ≡ self.now.basis.kind }
    {
        self.asked.kind
    }

    /// The season by which they are.
    pub fn season(&self) -> &Season
        ensures { result.now ≡ self.now.basis.season }
    {
        self.season
    }

    /// How many lines there are, with those that are passed over.
    pub fn len(&self) -> usize
        ensures { result ≡ length self.now.tokens }
    {
        self.lines.len()
    }

    /// How many clubs there are.
    pub fn clubs(&self) -> u8
        ensures { result ≡ length self.now.basis.sheet.clubs }
    {
        self.sheet.clubs.len() as u8
    }

    /// How many fixtures there are.
    pub fn fixtures(&self) -> u16
        ensures value { result ≡ length self.now.basis.sheet.fixtures }
        ensures season { length self.now.basis.season.scores ≡ result }
    {
        self.sheet.fixtures.len() as u16
    }

    /// What the line at a position is.
    pub fn token(&self, at: usize) -> Result<Token, OutOfMemory>
        requires { at < length self.now.tokens }
        ensures { IfOk result
            (λ token. drop at self.now.tokens ≡ token ∷ drop (at + 1) self.now.tokens) }
    {
        token_at(self.alloc, self.lines, at)
    }

    /// The next line that counts, from a position on, with its position.
    pub fn next(&self, from: usize) -> Result<(usize, Token), CheckStopAt>
        requires { from ≤ length self.now.tokens }
        ensures { FindsNext self.now from result }
    {
        for at in from..self.len() {
            let token = self.token(at)?;
            if counts(&token) {
                return Ok((at, token));
            }
        }
        Err(CheckStopAt::Short)
    }
}
