//! What one line of a report is, before it is known whether it may come there.

ghost use Rattle.std.specs.Prelude.{◌≡◌, ◌<◌, ◌+◌, ◌∷◌, IfOk, drop, length};
ghost use Rattle.line_tokens.specs.Tokens.{token_of, token_of_row, begins_proof, token_of_line};
ghost use Rattle.line_tokens.specs.Tokens.{token_of_wide, tokens_of};
ghost use Rattle.line_tokens.specs.Tokens as tokens;
ghost use Rattle.wide_lines.specs.WideTexts.{wide_line_in};

use cert_text::{LineStop, ProofLine};
use fixture_sheet::{Fields, FieldsStop, fields_of};
use kept_lines::LineList;
use league_core::OutOfMemory;
use std::alloc::Global;
use wide_lines::{WideLine, read_wide_line};

/// A line of a report, read alone.
#[derive(Drop)]
pub enum Token {
    /// No field is left of it: it is passed over.
    Blank,
    /// A row, by its fields.
    Row(Fields),
    /// A proof line.
    Proof(ProofLine),
    /// A leaf that is refuted by the near reason of a rival, from 0, marked new or not.
    Near { rival: u8, fresh: bool },
    /// Neither: no place of a report has such a line.
    Unknown,
}

/// What a line is, by its bytes without its end.
pub fn read_token(alloc: Global, text: &[u8]) -> Result<Token, OutOfMemory>
    ensures { IfOk result (λ token. token ≡ token_of text.now) }
{
    if begins_proof(text) {
        proof_token(alloc, text)
    } else {
        row_token(alloc, text)
    }
}

/// The text begins as a proof line does.
pub fn begins_proof(text: &[u8]) -> bool
    ensures { result ≡ begins_proof text.now }
{
    match text {
        [first, ..] => *first == b'[',
        [] => false,
    }
}

fn proof_token(alloc: Global, text: &[u8]) -> Result<Token, OutOfMemory>
    ensures { IfOk result (λ token. token ≡ token_of_line (wide_line_in text.now)) }
{
    match read_wide_line(alloc, text) {
        Ok(line) => Ok(wide_token(line)),
        Err(LineStop::NoForm) => Ok(Token::Unknown),
        Err(LineStop::OutOfMemory) => Err(OutOfMemory),
    }
}

fn wide_token(line: WideLine) -> Token
    ensures { result ≡ token_of_wide line }
{
    match line {
        WideLine::Plain(line) => Token::Proof(line),
        WideLine::Near(rival) => Token::Near {
            rival,
            fresh: false,
        },
        WideLine::NewNear(rival) => Token::Near { rival, fresh: true },
    }
}

fn row_token(alloc: Global, text: &[u8]) -> Result<Token, OutOfMemory>
    ensures { IfOk result (λ token. token ≡ token_of_row text.now) }
{
    match fields_of(alloc, text) {
        Ok(Some(fields)) => Ok(Token::Row(fields)),
        Ok(None) => Ok(Token::Blank),
        Err(FieldsStop::InnerReturn) => Ok(Token::Unknown),
        Err(FieldsStop::OutOfMemory) => Err(OutOfMemory),
    }
}

/// What the line at a position, from 0, is.
pub fn token_at(alloc: Global, lines: &LineList, at: usize) -> Result<Token, OutOfMemory>
    requires { at < length lines.now }
    ensures { IfOk result (λ token.
        drop at (tokens_of lines.now) ≡ token ∷ drop (at + 1) (tokens_of lines.now)) }
{
    read_token(alloc, lines.text(at))
}

/// The line counts: it is not passed over.
pub fn counts(token: &Token) -> bool
    ensures { result ≡ tokens.counts token.now }
{
    !matches!(token, Token::Blank)
}
