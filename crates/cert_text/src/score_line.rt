//! The most frequent line, a match with its score, without a JSON value.

ghost use Rattle.std.specs.Prelude.{◌≡◌, ◌++◌, ◌∷◌, [], IfOk, OnOk, decimal};
ghost use Rattle.cert_text.specs.Lines.{text_of_proof_line};
ghost use Rattle.cert_text.specs.declared.proof_line.ProofLine.TheVariants as lines;

use itoa::Buffer;
use league_core::{OutOfMemory, Score};
use std::alloc::Global;

// As many bytes as a match with its score has at most, with the end of its row.
const MOST_LENGTH: usize = 24;

/// The text of a match, counted from 0, with its score.
pub fn score_text(alloc: Global, fixture: u16, score: Score) -> Result<Vec<u8>, OutOfMemory>
    ensures { IfOk result
        (λ text. text.items ≡ text_of_proof_line (lines.Score fixture score)) }
{
    let mut text = Vec::with_capacity(alloc, MOST_LENGTH)?;
    text.extend_from_slice(b"[\"score\",")?;
    push_number(&mut text, u32::from(fixture) + 1, b',')?;
    push_number(&mut text, u32::from(score.home), b',')?;
    push_number(&mut text, u32::from(score.away), b']')?;
    Ok(text)
}

// Puts a number at the end, and a mark after it.
fn push_number(text: &mut Vec<u8>, number: u32, mark: u8) -> Result<(), OutOfMemory>
    ensures { OnOk result (text.new.items ≡ text.old.items ++ (decimal number ++ mark ∷ [])) }
{
    let mut digits = Buffer::new();
    text.extend_from_slice(digits.format(number).as_bytes())?;
    text.push(mark)?;
    Ok(())
}
