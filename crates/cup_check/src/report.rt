//! A report on a cup with what it is judged by, and the next of its lines that counts.

ghost use Rattle.std.specs.Prelude.{◌≡◌, ◌<◌, ◌≤◌, ◌+◌, ◌^◌, ◌∷◌, ℕ, List, None, length, drop};
ghost use Rattle.std.specs.Prelude.{IfOk, IfSome, IsTrue};
ghost use Rattle.cup_grammar.specs.CupDues.{CupDue};
ghost use Rattle.cup_grammar.specs.inside.CupParts.{is_token_in_range};
ghost use Rattle.cup_check.specs.inside.CupGoes.{FindsNextInCup, IsJudgedInCup, IsNextInCup};
ghost use Rattle.cup_check.specs.inside.CupGoes.{cup_ending_from};

use cert_check::CheckStopAt;
use cup_grammar::{CupToken, counts_in_cup, cup_token_at};
use cup_sheet::Cup;
use kept_lines::LineList;
use league_core::{OutOfMemory, Season};
use std::alloc::Global;
use std::marker::Model;

/// The lines of a report with the cup, the seasons of its groups and the ask by which they are
/// judged. Contracts see what each line is.
#[derive(Drop)]
pub struct CupReport<'a> {
    pub alloc: Global,
    pub cup: &'a Cup,
    pub seasons: &'a [Season],
    pub epoch: u64,
    pub lines: &'a LineList,
}

impl<'a> Model for CupReport<'a> {
    ghost use Rattle.cup_grammar.specs.CupReports.{cup_tokens_of};
    ghost use Rattle.cup_check.specs.inside.CupGoes.{CupReportView, IsJudgedInCup};

    ghost Value = { CupReportView };

    ghost view = { λ report. record {
      basis = record {
        cup = report.cup.now;
        seasons = report.seasons.now;
        epoch = report.epoch;
      };
      tokens = cup_tokens_of report.lines.now;
    } };

    ghost invariant = { λ report. IsJudgedInCup report.cup.now report.seasons.now };
}

impl<'a> CupReport<'a> {
    /// Hands on what the type keeps: a cup that may be played, and a season of each group.
    pub fn recall_invariant(&self)
        ensures { IsJudgedInCup self.now.basis.cup self.now.basis.seasons }
    {
        let _cup = self.cup;
    }

    /// How many lines there are, with those that are passed over.
    pub fn len(&self) -> usize
        ensures { result ≡ length self.now.tokens }
    {
        self.lines.len()
    }

    // What the line at a position is.
    fn token(&self, at: usize) -> Result<CupToken, OutOfMemory>
        requires { at < length self.now.tokens }
        ensures there { IfOk result
            (λ token. drop at self.now.tokens ≡ token ∷ drop (at + 1) self.now.tokens) }
        ensures ranges { IfOk result (λ token. IsTrue (is_token_in_range token)) }
    {
        cup_token_at(self.alloc, self.lines, at)
    }

    /// The next line that counts, from a position on, with its position.
    pub fn next(&self, from: usize) -> Result<(usize, CupToken), CheckStopAt>
        requires { from ≤ length self.now.tokens }
        ensures { FindsNextInCup self.now from result }
    {
        for at in from..self.len() {
            if let Some(token) = self.counted(at)? {
                return Ok((at, token));
            }
        }
        Err(CheckStopAt::Short)
    }

    // What the line at a position is, if it counts.
    fn counted(&self, at: usize) -> Result<Option<CupToken>, OutOfMemory>
        requires within { at < length self.now.tokens }
        requires room { at + 1 < 2 ^ 64 }
        ensures found { IfOk result (λ found. IfSome found (IsNextInCup self.now at at)) }
        ensures passed { IfOk result (λ found. found ≡ None
            → (due : CupDue) (dues : List CupDue) (unsettled : ℕ)
            → cup_ending_from self.now at (due ∷ dues) unsettled
            ≡ cup_ending_from self.now (at + 1) (due ∷ dues) unsettled) }
    {
        let token = self.token(at)?;
        if counts_in_cup(&token) {
            Ok(Some(token))
        } else {
            Ok(None)
        }
    }
}
