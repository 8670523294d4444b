//! Proof lines as text.

ghost use Rattle.std.specs.Prelude.{◌≡◌, Some, IfOk, IsTrue};
ghost use Rattle.std.specs.List.{list_all};
ghost use Rattle.serde_json.specs.Read.{read};
ghost use Rattle.cert_text.specs.Lines.{parts_of, text_of_proof_line, is_printed};
ghost use Rattle.cert_text.specs.Ranges.{is_in_range};
ghost use Rattle.cert_text.specs.inside.Values.{parts_value};
ghost use Rattle.cert_text.specs.Forms.{line_in};
ghost use Rattle.cert_text.specs.inside.Widths.{is_line_kept};

use crate::proof_line::ProofLine;
use crate::score_line::score_text;
use crate::values::line_value;
use league_core::OutOfMemory;
use std::alloc::Global;

/// The one text of a line whose numbers its form can have: compact JSON, without a line feed. As
/// JSON it is the array of the line's parts, and it is read back as the line.
pub fn write_line(alloc: Global, line: &ProofLine) -> Result<Vec<u8>, OutOfMemory>
    requires in_range { IsTrue (is_in_range line.now) }
    ensures text { IfOk result (λ text. text.items ≡ text_of_proof_line line.now) }
    ensures printed { IfOk result (λ text. IsTrue (list_all is_printed text.items)) }
    ensures json { IfOk result (λ text. read text.items ≡ Some (parts_value (parts_of line.now))) }
    ensures reads_back { IfOk result (λ text. line_in text.items ≡ Some line.now) }
{
    let text = line_text(alloc, line)?;
    Ok(text)
}

fn line_text(alloc: Global, line: &ProofLine) -> Result<Vec<u8>, OutOfMemory>
    ensures text { IfOk result (λ text. text.items ≡ text_of_proof_line line.now) }
    ensures kept { IsTrue (is_line_kept line.now) }
{
    match line {
        ProofLine::Score { fixture, score } => score_text(alloc, *fixture, *score),
        _ => json_text(alloc, line),
    }
}

// The text of a line as a JSON value.
fn json_text(alloc: Global, line: &ProofLine) -> Result<Vec<u8>, OutOfMemory>
    ensures text { IfOk result (λ text. text.items ≡ text_of_proof_line line.now) }
    ensures kept { IsTrue (is_line_kept line.now) }
{
    let value = line_value(alloc, line)?;
    Ok(value.to_vec(alloc)?)
}
