//! The rows of a report on a cup: that of the ask, and one for each club.

ghost use Rattle.std.specs.Prelude.{◌≡◌, ◌<◌, ◌≤◌, ◌+◌, ◌^◌, ℕ, IsTrue, IfOk, IfSome};
ghost use Rattle.std.specs.Prelude.{length};
ghost use Rattle.cup_sheet.specs.Cups.{clubs_together};
ghost use Rattle.cup_text.specs.CupItems.{cup_club_name};
ghost use Rattle.cert_check.specs.inside.Calls.{unsettled_in};
ghost use Rattle.cup_grammar.specs.CupDues.{ask_row, club_row};
ghost use Rattle.cup_grammar.specs.CupExpected.{after_in_cup, promised_of_club};
ghost use Rattle.cup_grammar.specs.inside.CupRowTruths.{counts_in_cup};
ghost use Rattle.cup_check.specs.inside.CupGoes.{GoesByClubWord, GoesInCup, IsNextInCup};
ghost use Rattle.cup_check.specs.inside.CupGoes.{with_unsettled_club};
ghost use Rattle.cup_check.specs.inside.CupSideCalls.{after_cup_ask_row_if};

use crate::report::CupReport;
use cert_check::{CheckStopAt, decimal_of, is_ask_row, word_in_row};
use cup_grammar::CupToken;
use league_core::OutOfMemory;
use line_tokens::RowWord;

impl<'a> CupReport<'a> {
    /// The row of the ask.
    pub fn ask_row(&self, from: usize) -> Result<usize, CheckStopAt>
        requires { from ≤ length self.now.tokens }
        ensures { GoesInCup self.now from ask_row result }
    {
        let (at, token) = self.next(from)?;
        self.ask_line(at, &token)
    }

    // Goes on behind a line that has to be the row of the ask.
    fn ask_line(&self, at: usize, token: &CupToken) -> Result<usize, CheckStopAt>
        requires room { at + 1 < 2 ^ 64 }
        requires counted { IsTrue (counts_in_cup token.now) }
        ensures { (from : ℕ) → IsNextInCup self.now from at token.now
            → GoesInCup self.now from ask_row result }
    {
        if self.is_row_of_ask(token)? {
            Ok(at + 1)
        } else {
            Err(CheckStopAt::BadLine(at))
        }
    }

    // A line that counts is the row of the ask.
    fn is_row_of_ask(&self, token: &CupToken) -> Result<bool, OutOfMemory>
        requires { IsTrue (counts_in_cup token.now) }
        ensures { IfOk result (λ is.
            after_in_cup self.now.basis ask_row token.now ≡ after_cup_ask_row_if is) }
    {
        match token {
            CupToken::Row(fields) => {
                let epoch = decimal_of(self.alloc, self.epoch)?;
                Ok(is_ask_row(fields, epoch.as_str()))
            }
            _ => Ok(false),
        }
    }

    /// The row of a club, with its word.
    pub fn club_row(&self, from: usize, club: u8) -> Result<(usize, RowWord), CheckStopAt>
        requires room { from ≤ length self.now.tokens }
        requires in_range { club < clubs_together self.now.basis.cup.groups }
        ensures { GoesByClubWord self.now from club result }
    {
        let (at, token) = self.next(from)?;
        self.club_line(at, &token, club)
    }

    // Goes on behind a line that has to be the row of a club.
    fn club_line(
        &self,
        at: usize,
        token: &CupToken,
        club: u8,
    ) -> Result<(usize, RowWord), CheckStopAt>
        requires room { at + 1 < 2 ^ 64 }
        requires counted { IsTrue (counts_in_cup token.now) }
        requires in_range { club < clubs_together self.now.basis.cup.groups }
        ensures { (from : ℕ) → IsNextInCup self.now from at token.now
            → GoesByClubWord self.now from club result }
    {
        match self.word_of(token, club)? {
            Some(word) => Ok((at + 1, word)),
            None => Err(CheckStopAt::BadLine(at)),
        }
    }

    // The word of a line that counts, if it is the row of a club.
    fn word_of(&self, token: &CupToken, club: u8) -> Result<Option<RowWord>, OutOfMemory>
        requires counted { IsTrue (counts_in_cup token.now) }
        requires in_range { club < clubs_together self.now.basis.cup.groups }
        ensures word { IfOk result (λ word. after_in_cup self.now.basis (club_row club) token.now
            ≡ promised_of_club club word) }
        ensures counts { IfOk result (λ word. IfSome word (λ it. (unsettled : ℕ)
            → with_unsettled_club unsettled token.now ≡ unsettled + unsettled_in it)) }
    {
        match token {
            CupToken::Row(fields) => {
                let quota = decimal_of(self.alloc, u64::from(self.cup.quota))?;
                Ok(word_in_row(fields, quota.as_str(), self.name(club)))
            }
            _ => Ok(None),
        }
    }

    // The name of a club of the cup.
    fn name(&self, club: u8) -> &str
        requires { club < clubs_together self.now.basis.cup.groups }
        ensures { result.now ≡ cup_club_name self.now.basis.cup club }
    {
        self.recall_invariant();
        match self.group_with(club) {
            Some(group) => {
                let own = group.own_club(club);
                group.sheet.clubs.as_slice()[own as usize].name.as_str()
            }
            None => unreachable!(),
        }
    }
}
