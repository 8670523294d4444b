//! The rows of a report: that of the ask, and one for each line and club.

ghost use Rattle.std.specs.Prelude.{◌≡◌, ◌<◌, ◌≤◌, ◌+◌, ◌==◌, ◌&&◌, ℕ};
ghost use Rattle.std.specs.Prelude.{IsTrue, IfOk, IfSome, length};
ghost use Rattle.std.specs.Prelude.{bytes_eq, codes, string_bytes, decimal};
ghost use Rattle.fixture_sheet.specs.Fields.{field};
ghost use Rattle.line_tokens.specs.Tokens.{counts};
ghost use Rattle.cert_check.specs.ExpectedItems.{ask_row, verdict_row, promised, after};
ghost use Rattle.line_tokens.specs.LineRanges.{name_of_club};
ghost use Rattle.cert_check.specs.ExpectedItems as dues;
ghost use Rattle.cert_check.specs.Machine.{with_unsettled};
ghost use Rattle.cert_check.specs.inside.Calls.{Goes, GoesByWord, after_ask_row_if, unsettled_in};

use crate::report::Report;
use crate::stop::CheckStopAt;
use fixture_sheet::Fields;
use league_core::OutOfMemory;
use line_tokens::{RowWord, Token};
use std::alloc::{AllocError, Global};

impl<'a> Report<'a> {
    /// The row of the ask.
    pub fn ask_row(&self, from: usize) -> Result<usize, CheckStopAt>
        requires { from ≤ length self.now.tokens }
        ensures { Goes self.now from ask_row result }
    {
        let (at, token) = self.next(from)?;
        if self.is_ask_row(&token)? {
            Ok(at + 1)
        } else {
            Err(CheckStopAt::BadLine(at))
        }
    }

    fn is_ask_row(&self, token: &Token) -> Result<bool, OutOfMemory>
        requires { IsTrue (counts token.now) }
        ensures { IfOk result
            (λ is. after self.now.basis ask_row token.now ≡ after_ask_row_if is) }
    {
        match token {
            Token::Row(fields) => {
                let epoch = decimal_of(self.alloc, self.asked.epoch)?;
                Ok(is_ask_row(fields, epoch.as_str()))
            }
            _ => Ok(false),
        }
    }

    /// The row of a line and a club, with its word.
    pub fn verdict_row(
        &self,
        from: usize,
        line: u8,
        club: u8,
    ) -> Result<(usize, RowWord), CheckStopAt>
        requires room { from ≤ length self.now.tokens }
        requires in_range { club < length self.now.basis.sheet.clubs }
        ensures { GoesByWord self.now from line club result }
    {
        let (at, token) = self.next(from)?;
        match self.word_in(&token, line, club)? {
            Some(word) => Ok((at + 1, word)),
            None => Err(CheckStopAt::BadLine(at)),
        }
    }

    /// The word of a line that counts, if it is the row of a line and a club.
    pub fn word_in(&self, token: &Token, line: u8, club: u8) -> Result<Option<RowWord>, OutOfMemory>
        requires counted { IsTrue (counts token.now) }
        requires in_range { club < length self.now.basis.sheet.clubs }
        ensures word { IfOk result (λ word.
            after self.now.basis (verdict_row line club) token.now ≡ promised line club word) }
        ensures counts { IfOk result (λ word. IfSome word (λ it. (unsettled : ℕ)
            → with_unsettled unsettled token.now ≡ unsettled + unsettled_in it)) }
    {
        match token {
            Token::Row(fields) => {
                let number = decimal_of(self.alloc, u64::from(line))?;
                let name = self.sheet.clubs.as_slice()[club as usize].name.as_str();
                Ok(word_in_row(fields, number.as_str(), name))
            }
            _ => Ok(None),
        }
    }
}

/// The digits of a number.
pub fn decimal_of(alloc: Global, number: u64) -> Result<String, OutOfMemory>
    ensures { IfOk result (λ text. string_bytes text ≡ decimal number) }
{
    let text: Result<String, AllocError> = format!(in alloc; "{number}");
    Ok(text?)
}

/// The fields are the row of the ask after so many events.
pub fn is_ask_row(fields: &Fields, epoch: &str) -> bool
    ensures { result ≡ ((length fields.now == 2) && bytes_eq (field 0 fields.now) (codes "ask")
        && bytes_eq (field 1 fields.now) epoch.now) }
{
    fields.len() == 2 && fields.is_kind(b"ask") && fields.at(1) == epoch.as_bytes()
}

fn is_row_about(fields: &Fields, number: &str, name: &str) -> bool
    ensures { result ≡ ((length fields.now == 4)
        && bytes_eq (field 0 fields.now) (codes "verdict")
        && bytes_eq (field 1 fields.now) number.now && bytes_eq (field 2 fields.now) name.now) }
{
    fields.len() == 4
        && fields.is_kind(b"verdict")
        && fields.at(1) == number.as_bytes()
        && fields.at(2) == name.as_bytes()
}

/// The word that a row says of this number and this name, if it is their row.
pub fn word_in_row(fields: &Fields, number: &str, name: &str) -> Option<RowWord>
    ensures { result ≡ dues.word_if_about ((length fields.now == 4)
        && bytes_eq (field 0 fields.now) (codes "verdict")
        && bytes_eq (field 1 fields.now) number.now && bytes_eq (field 2 fields.now) name.now)
        (field 3 fields.now) }
{
    if is_row_about(fields, number, name) {
        word_named(fields.at(3))
    } else {
        None
    }
}

fn word_named(text: &[u8]) -> Option<RowWord>
    ensures { result ≡ dues.word_named text.now }
{
    if text == b"clinched".as_slice() {
        Some(RowWord::Clinched)
    } else if text == b"lost".as_slice() {
        Some(RowWord::Lost)
    } else if text == b"possible".as_slice() {
        Some(RowWord::Possible)
    } else if text == b"unsettled".as_slice() {
        Some(RowWord::Unsettled)
    } else {
        None
    }
}
