//! Proof lines out of text.

ghost use Rattle.std.specs.Prelude.{◌≡◌, Some, None, IfOk, IfErr, option_map};
ghost use Rattle.serde_json.specs.View.{view};
ghost use Rattle.cert_text.specs.Forms.{json_of, line_in};

use crate::forms::line_of;
use crate::plain_form::plain_line;
use crate::proof_line::ProofLine;
use league_core::OutOfMemory;
use serde_json::{Category, Value};
use std::alloc::Global;
use thiserror::Error;

/// Why a text gave no proof line.
#[derive(Clone, Copy, PartialEq, Eq, Debug, Error)]
pub enum LineStop {
    /// It has none of the forms.
    #[error("the text has none of the forms of a proof line")]
    NoForm,
    #[error("out of memory")]
    OutOfMemory,
}

impl From<OutOfMemory> for LineStop {
    ghost use Rattle.cert_text.specs.declared.reader.LineStop.TheVariants.{OutOfMemory};

    ghost from_gives = { λ _ stop. stop ≡ OutOfMemory };

    fn from(_: OutOfMemory) -> LineStop {
        LineStop::OutOfMemory
    }
}

/// The line that a text without its line feed has the form of. Spaces stand where JSON allows
/// them.
pub fn read_line(alloc: Global, text: &[u8]) -> Result<ProofLine, LineStop>
    ensures line { IfOk result (λ line. line_in text.now ≡ Some line) }
    ensures no_form { IfErr result (λ stop. stop ≡ LineStop.NoForm → line_in text.now ≡ None) }
{
    match plain_line(alloc, text)? {
        Some(line) => Ok(line),
        None => line_by_json(alloc, text),
    }
}

// The same by the reader of JSON, whatever the form and its spaces.
fn line_by_json(alloc: Global, text: &[u8]) -> Result<ProofLine, LineStop>
    ensures line { IfOk result (λ line. line_in text.now ≡ Some line) }
    ensures no_form { IfErr result (λ stop. stop ≡ LineStop.NoForm → line_in text.now ≡ None) }
{
    match json_in(alloc, text)? {
        Some(value) => match line_of(alloc, &value)? {
            Some(line) => Ok(line),
            None => Err(LineStop::NoForm),
        },
        None => Err(LineStop::NoForm),
    }
}

// The JSON value of a text; `None` if it is none, or is not UTF-8.
fn json_in(alloc: Global, text: &[u8]) -> Result<Option<Value>, OutOfMemory>
    ensures { IfOk result (λ found. option_map (λ value. view value) found ≡ json_of text.now) }
{
    match Value::from_slice(alloc, text) {
        Ok(value) => Ok(Some(value)),
        Err(stop) => match stop.classify() {
            Category::Memory => Err(OutOfMemory),
            _ => Ok(None),
        },
    }
}
