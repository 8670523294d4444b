//! What one line of a report on a cup is, before it is known whether it may come there.

ghost use Rattle.std.specs.Prelude.{◌≡◌, ◌<◌, ◌+◌, ◌∷◌, IfOk, IfSome, Some, drop, false, length};
ghost use Rattle.line_tokens.specs.Tokens.{begins_proof, token_of_row};
ghost use Rattle.cup_text.specs.CupForms.{cup_line_in};
ghost use Rattle.cup_grammar.specs.CupReports.{cup_token_of, cup_token_of_row, cup_tokens_of};
ghost use Rattle.cup_grammar.specs.CupReports.{token_of_cup_line};
ghost use Rattle.cup_grammar.specs.inside.CupRowTruths as truths;

use cert_text::{LineStop, ProofLine, read_line};
use cup_text::{CupLine, read_cup_line};
use fixture_sheet::Fields;
use kept_lines::LineList;
use league_core::OutOfMemory;
use line_tokens::{Token, begins_proof, read_token};
use std::alloc::Global;

/// A line of a report on a cup, read alone.
#[derive(Drop)]
pub enum CupToken {
    /// No field is left of it: it is passed over.
    Blank,
    /// A row, by its fields.
    Row(Fields),
    /// A proof line.
    Proof(CupLine),
    /// Neither: no place of a report has such a line.
    Unknown,
}

/// What a line is, by its bytes without its end.
pub fn read_cup_token(alloc: Global, text: &[u8]) -> Result<CupToken, OutOfMemory>
    ensures { IfOk result (λ token. token ≡ cup_token_of text.now) }
{
    if begins_proof(text) {
        proof_token(alloc, text)
    } else {
        row_token(alloc, text)
    }
}

fn proof_token(alloc: Global, text: &[u8]) -> Result<CupToken, OutOfMemory>
    ensures { IfOk result (λ token. token ≡ token_of_cup_line (cup_line_in text.now)) }
{
    match score_line(alloc, text)? {
        Some(line) => Ok(CupToken::Proof(line)),
        None => token_by_json(alloc, text),
    }
}

// The score of a fixture, of which most lines are: the reader of leagues' lines is quick.
fn score_line(alloc: Global, text: &[u8]) -> Result<Option<CupLine>, OutOfMemory>
    ensures { IfOk result (λ found. IfSome found (λ line. cup_line_in text.now ≡ Some line)) }
{
    if !text.starts_with(b"[\"score\",") {
        return Ok(None);
    }
    match read_line(alloc, text) {
        Ok(ProofLine::Score { fixture, score }) => Ok(Some(CupLine::Score { fixture, score })),
        Ok(_) => Ok(None),
        Err(LineStop::NoForm) => Ok(None),
        Err(LineStop::OutOfMemory) => Err(OutOfMemory),
    }
}

fn token_by_json(alloc: Global, text: &[u8]) -> Result<CupToken, OutOfMemory>
    ensures { IfOk result (λ token. token ≡ token_of_cup_line (cup_line_in text.now)) }
{
    match read_cup_line(alloc, text) {
        Ok(line) => Ok(CupToken::Proof(line)),
        Err(LineStop::NoForm) => Ok(CupToken::Unknown),
        Err(LineStop::OutOfMemory) => Err(OutOfMemory),
    }
}

fn row_token(alloc: Global, text: &[u8]) -> Result<CupToken, OutOfMemory>
    requires no_proof { begins_proof text.now ≡ false }
    ensures { IfOk result (λ token. token ≡ cup_token_of_row (token_of_row text.now)) }
{
    Ok(cup_token(read_token(alloc, text)?))
}

fn cup_token(token: Token) -> CupToken
    ensures { result ≡ cup_token_of_row token }
{
    match token {
        Token::Blank => CupToken::Blank,
        Token::Row(fields) => CupToken::Row(fields),
        Token::Proof(_) => CupToken::Unknown,
        Token::Near { .. } => CupToken::Unknown,
        Token::Unknown => CupToken::Unknown,
    }
}

/// What the line at a position, from 0, is.
pub fn cup_token_at(alloc: Global, lines: &LineList, at: usize) -> Result<CupToken, OutOfMemory>
    requires { at < length lines.now }
    ensures { IfOk result (λ token.
        drop at (cup_tokens_of lines.now) ≡ token ∷ drop (at + 1) (cup_tokens_of lines.now)) }
{
    read_cup_token(alloc, lines.text(at))
}

/// The line counts: it is not passed over.
pub fn counts_in_cup(token: &CupToken) -> bool
    ensures { result ≡ truths.counts_in_cup token.now }
{
    !matches!(token, CupToken::Blank)
}
