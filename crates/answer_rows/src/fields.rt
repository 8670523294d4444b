//! The fields of rows.

ghost use Rattle.std.specs.Fmt.{signed_decimal};
ghost use Rattle.std.specs.Prelude.{◌<◌, ◌≡◌, IfOk, decimal, length};
ghost use Rattle.answer_rows.specs.Parts.{club_name};
ghost use Rattle.answer_rows.specs.Rows.{bound_text, range_text, word_text};

use crate::bound::Bound;
use crate::word::Word;
use league_core::{OutOfMemory, Sheet};
use std::alloc::Global;

/// A field of this text.
pub fn text_field(alloc: Global, word: &str) -> Result<Vec<u8>, OutOfMemory>
    ensures { IfOk result (λ field. field.items ≡ word.now) }
{
    let field = word.as_bytes().to_vec(alloc)?;
    Ok(field)
}

/// A field that writes a number.
pub fn number_field(alloc: Global, number: u64) -> Result<Vec<u8>, OutOfMemory>
    ensures { IfOk result (λ field. field.items ≡ decimal number) }
{
    let text = format!(in alloc; "{number}")?;
    text_field(alloc, text.as_str())
}

/// A field that writes a number, with its sign if it is less than 0.
pub fn signed_field(alloc: Global, number: i32) -> Result<Vec<u8>, OutOfMemory>
    ensures { IfOk result (λ field. field.items ≡ signed_decimal number) }
{
    let text = format!(in alloc; "{number}")?;
    text_field(alloc, text.as_str())
}

/// The name of a club, by its number from 0.
pub fn club_name(sheet: &Sheet, club: u8) -> &str
    requires { club < length sheet.now.clubs }
    ensures { result.now ≡ club_name sheet.now club }
{
    sheet.clubs.as_slice()[club as usize].name.as_str()
}

pub(crate) fn word_text(word: Word) -> &'static str
    ensures { result.now ≡ word_text word }
{
    match word {
        Word::Clinched => "clinched",
        Word::Lost => "lost",
        Word::Possible => "possible",
        Word::Unsettled => "unsettled",
    }
}

// A number, `none`, or `LOW..HIGH`.
pub(crate) fn bound_field(alloc: Global, bound: &Bound) -> Result<Vec<u8>, OutOfMemory>
    ensures { IfOk result (λ field. field.items ≡ bound_text bound.now) }
{
    match bound {
        Bound::Known(number) => signed_field(alloc, *number),
        Bound::None => text_field(alloc, "none"),
        Bound::Between { low, high, .. } => range_field(alloc, *low, *high),
    }
}

fn range_field(alloc: Global, low: i32, high: i32) -> Result<Vec<u8>, OutOfMemory>
    ensures { IfOk result (λ field. field.items ≡ range_text low high) }
{
    let mut field = signed_field(alloc, low)?;
    field.extend_from_slice("..".as_bytes())?;
    let end = signed_field(alloc, high)?;
    field.extend_from_slice(end.as_slice())?;
    Ok(field)
}
