//! The lines of cups' proofs out of text.

ghost use Rattle.std.specs.Prelude.{◌≡◌, Some, None, IfOk, IfErr, option_map};
ghost use Rattle.serde_json.specs.View.{view};
ghost use Rattle.cert_text.specs.Forms.{json_of};
ghost use Rattle.cup_text.specs.CupForms.{cup_line_in};

use crate::cup_line::CupLine;
use crate::form::line_of;
use cert_text::LineStop;
use league_core::OutOfMemory;
use serde_json::{Category, Value};
use std::alloc::Global;

/// The line that a text without its line feed has the form of. Spaces stand where JSON allows
/// them.
pub fn read_cup_line(alloc: Global, text: &[u8]) -> Result<CupLine, LineStop>
    ensures line { IfOk result (λ line. cup_line_in text.now ≡ Some line) }
    ensures no_form { IfErr result (λ stop. stop ≡ LineStop.NoForm → cup_line_in text.now ≡ None) }
{
    match json_in(alloc, text)? {
        Some(value) => match line_of(alloc, &value)? {
            Some(line) => Ok(line),
            None => Err(LineStop::NoForm),
        },
        None => Err(LineStop::NoForm),
    }
}

// The JSON value of a text; `None` if it is none, or is not UTF-8.
fn json_in(alloc: Global, text: &[u8]) -> Result<Option<Value>, OutOfMemory>
    ensures { IfOk result (λ found. option_map (λ value. view value) found ≡ json_of text.now) }
{
    match Value::from_slice(alloc, text) {
        Ok(value) => Ok(Some(value)),
        Err(stop) => match stop.classify() {
            Category::Memory => Err(OutOfMemory),
            _ => Ok(None),
        },
    }
}
