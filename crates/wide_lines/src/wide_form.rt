//! Wide lines out of text.

ghost use Rattle.std.specs.Prelude.{◌≡◌, Some, None, IfOk, IfErr, option_map};
ghost use Rattle.serde_json.specs.View.{view};
ghost use Rattle.cert_text.specs.Forms.{json_of};
ghost use Rattle.wide_lines.specs.WideTexts.{near_rival_in, near_leaf_in, near_line_named};
ghost use Rattle.wide_lines.specs.WideTexts.{near_line_of_value, near_line_in, wide_line_in};

use crate::wide_line::WideLine;
use cert_text::places::{club, ends, word};
use cert_text::{LineStop, read_line};
use league_core::OutOfMemory;
use league_core::limits::MOST_CLUBS;
use serde_json::{Category, Value};
use std::alloc::Global;

/// The wide line that a text without its line feed has the form of. Spaces stand where JSON allows
/// them.
pub fn read_wide_line(alloc: Global, text: &[u8]) -> Result<WideLine, LineStop>
    ensures line { IfOk result (λ line. wide_line_in text.now ≡ Some line) }
    ensures no_form { IfErr result
        (λ stop. stop ≡ LineStop.NoForm → wide_line_in text.now ≡ None) }
{
    match read_line(alloc, text) {
        Ok(line) => Ok(WideLine::Plain(line)),
        Err(LineStop::NoForm) => near_or_none(alloc, text),
        Err(LineStop::OutOfMemory) => Err(LineStop::OutOfMemory),
    }
}

// The near leaf that a text has the form of, which is no proof line.
fn near_or_none(alloc: Global, text: &[u8]) -> Result<WideLine, LineStop>
    ensures line { IfOk result (λ line. near_line_in text.now ≡ Some line) }
    ensures no_form { IfErr result
        (λ stop. stop ≡ LineStop.NoForm → near_line_in text.now ≡ None) }
{
    match json_in(alloc, text)? {
        Some(value) => match near_line_of(&value) {
            Some(line) => Ok(line),
            None => Err(LineStop::NoForm),
        },
        None => Err(LineStop::NoForm),
    }
}

// The JSON value of a text; `None` if it is none, or is not UTF-8.
fn json_in(alloc: Global, text: &[u8]) -> Result<Option<Value>, OutOfMemory>
    ensures { IfOk result (λ found. option_map (λ value. view value) found ≡ json_of text.now) }
{
    match Value::from_slice(alloc, text) {
        Ok(value) => Ok(Some(value)),
        Err(stop) => match stop.classify() {
            Category::Memory => Err(OutOfMemory),
            _ => Ok(None),
        },
    }
}

// The near leaf that a JSON value has the form of.
fn near_line_of(value: &Value) -> Option<WideLine>
    ensures { result ≡ near_line_of_value (view value.now) }
{
    named_near(value, word(value, 0)?)
}

// The near leaf whose first word this is.
fn named_near(value: &Value, name: &str) -> Option<WideLine>
    ensures { result ≡ near_line_named name.now (view value.now) }
{
    if name == "leaf" {
        Some(WideLine::Near(near_leaf(value)?))
    } else if name == "new_leaf" {
        Some(WideLine::NewNear(near_leaf(value)?))
    } else {
        None
    }
}

// The rival of a leaf whose reason is near.
fn near_leaf(value: &Value) -> Option<u8>
    ensures { result ≡ near_leaf_in (view value.now) }
{
    near_rival(value, word(value, 1)?)
}

fn near_rival(value: &Value, kind: &str) -> Option<u8>
    ensures { result ≡ near_rival_in kind.now (view value.now) }
{
    if kind == "near" && ends(value, 3) {
        club(value, 2, MOST_CLUBS)
    } else {
        None
    }
}
