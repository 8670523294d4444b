//! Lines as text.

ghost use Rattle.std.specs.Prelude.{◌≡◌, Some, IfOk, IsTrue};
ghost use Rattle.std.specs.List.{list_all};
ghost use Rattle.cert_text.specs.Forms.{json_of};
ghost use Rattle.cert_text.specs.Lines.{is_printed};
ghost use Rattle.cup_text.specs.CupForms.{cup_line_in};
ghost use Rattle.cup_text.specs.CupLines.{text_of_cup_line};
ghost use Rattle.cup_text.specs.CupRanges.{is_cup_line};
ghost use Rattle.cup_text.specs.CupValues.{cup_line_value};

use crate::cup_line::CupLine;
use crate::value::line_value;
use cert_text::LineText;
use league_core::OutOfMemory;
use std::alloc::Global;

/// The one text of a line whose numbers its form can have: compact JSON, without a line feed. It is
/// read back as the line.
pub fn write_cup_line(alloc: Global, line: &CupLine) -> Result<Vec<u8>, OutOfMemory>
    requires in_range { IsTrue (is_cup_line line.now) }
    ensures text { IfOk result (λ text. text.items ≡ text_of_cup_line line.now) }
    ensures printed { IfOk result (λ text. IsTrue (list_all is_printed text.items)) }
    ensures json { IfOk result (λ text. json_of text.items ≡ Some (cup_line_value line.now)) }
    ensures reads_back { IfOk result (λ text. cup_line_in text.items ≡ Some line.now) }
{
    let text = json_text(alloc, line)?;
    Ok(text)
}

impl LineText for CupLine {
    ghost in_range = { is_cup_line };

    ghost text = { text_of_cup_line };

    fn write(&self, alloc: Global) -> Result<Vec<u8>, OutOfMemory> {
        write_cup_line(alloc, self)
    }
}

// The text of a line as a JSON value.
fn json_text(alloc: Global, line: &CupLine) -> Result<Vec<u8>, OutOfMemory>
    ensures text { IfOk result (λ text. text.items ≡ text_of_cup_line line.now) }
    ensures json { IfOk result (λ text. json_of text.items ≡ Some (cup_line_value line.now)) }
{
    let value = line_value(alloc, line)?;
    Ok(value.to_vec(alloc)?)
}
