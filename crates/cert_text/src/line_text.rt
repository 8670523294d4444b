//! Lines of proofs, of whichever kind, as text.

ghost use Rattle.std.specs.Prelude.{◌≡◌, ℕ, Bool, List, IfOk, IsTrue};
ghost use Rattle.cert_text.specs.Lines.{text_of_proof_line};
ghost use Rattle.cert_text.specs.Ranges.{is_in_range};

use crate::line::write_line;
use crate::proof_line::ProofLine;
use league_core::OutOfMemory;
use std::alloc::Global;

/// A kind of line, each with one text.
pub trait LineText {
    // The line's numbers are such as its form has.
    ghost in_range: { Self → Bool };

    // The text of the line, without a line feed.
    ghost text: { Self → List ℕ };

    /// The one text of the line, without a line feed.
    fn write(&self, alloc: Global) -> Result<Vec<u8>, OutOfMemory>
        requires { IsTrue (in_range self.now) }
        ensures { IfOk result (λ made. made.items ≡ text self.now) };
}

impl LineText for ProofLine {
    ghost in_range = { is_in_range };

    ghost text = { text_of_proof_line };

    fn write(&self, alloc: Global) -> Result<Vec<u8>, OutOfMemory> {
        write_line(alloc, self)
    }
}
