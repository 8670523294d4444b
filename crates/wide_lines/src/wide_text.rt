//! Wide lines as text.

ghost use Rattle.std.specs.Prelude.{◌≡◌, Some, IfOk, IsTrue};
ghost use Rattle.std.specs.List.{list_all};
ghost use Rattle.serde_json.specs.View.{view};
ghost use Rattle.cert_text.specs.Lines.{is_printed};
ghost use Rattle.cert_text.specs.Ranges.{is_club_number};
ghost use Rattle.cert_text.specs.inside.Values.{parts_value};
ghost use Rattle.wide_lines.specs.WideTexts.{text_of_wide_line, is_wide_in_range, near_parts};
ghost use Rattle.wide_lines.specs.WideTexts.{text_of_near, near_line, wide_line_in};
ghost use Rattle.wide_lines.specs.WideTexts as texts;

use crate::wide_line::WideLine;
use cert_text::{LineText, write_line};
use league_core::OutOfMemory;
use serde_json::{Value, json};
use std::alloc::{AllocError, Global};

/// The one text of a line whose numbers its form can have: compact JSON, without a line feed. It is
/// read back as the line.
pub fn write_wide_line(alloc: Global, line: &WideLine) -> Result<Vec<u8>, OutOfMemory>
    requires in_range { IsTrue (is_wide_in_range line.now) }
    ensures text { IfOk result (λ text. text.items ≡ text_of_wide_line line.now) }
    ensures printed { IfOk result (λ text. IsTrue (list_all is_printed text.items)) }
    ensures reads_back { IfOk result (λ text. wide_line_in text.items ≡ Some line.now) }
{
    match line {
        WideLine::Plain(plain) => write_line(alloc, plain),
        WideLine::Near(rival) => near_text(alloc, *rival, false),
        WideLine::NewNear(rival) => near_text(alloc, *rival, true),
    }
}

impl LineText for WideLine {
    ghost in_range = { is_wide_in_range };

    ghost text = { text_of_wide_line };

    fn write(&self, alloc: Global) -> Result<Vec<u8>, OutOfMemory> {
        write_wide_line(alloc, self)
    }
}

// The text of a near leaf, marked new or not.
fn near_text(alloc: Global, rival: u8, fresh: bool) -> Result<Vec<u8>, OutOfMemory>
    requires { IsTrue (is_club_number rival) }
    ensures text { IfOk result (λ text. text.items ≡ text_of_near fresh rival) }
    ensures printed { IfOk result (λ text. IsTrue (list_all is_printed text.items)) }
    ensures reads_back { IfOk result
        (λ text. wide_line_in text.items ≡ Some (near_line fresh rival)) }
{
    let text = near_json(alloc, rival, fresh)?;
    Ok(text)
}

// Its text as a JSON value.
fn near_json(alloc: Global, rival: u8, fresh: bool) -> Result<Vec<u8>, OutOfMemory>
    ensures { IfOk result (λ text. text.items ≡ text_of_near fresh rival) }
{
    let value = near_value(alloc, rival, fresh)?;
    Ok(value.to_vec(alloc)?)
}

fn near_value(alloc: Global, rival: u8, fresh: bool) -> Result<Value, AllocError>
    ensures { IfOk result (λ value. view value ≡ parts_value (near_parts fresh rival)) }
{
    json!(in alloc; [leaf_word(fresh), "near", u64::from(rival) + 1])
}

fn leaf_word(fresh: bool) -> &'static str
    ensures { result.now ≡ texts.leaf_word fresh }
{
    if fresh { "new_leaf" } else { "leaf" }
}
