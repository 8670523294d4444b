//! Lines that csv reads by their commas alone, cut without csv's reader. It makes a table of 2,048
//! cells for each text that it reads, and nearly all lines have no quote.

ghost use Rattle.std.specs.Prelude.{◌≡◌, IfOk, map};
ghost use Rattle.fixture_sheet.specs.inside.PlainLines.{between_commas, has_sign, without_commas};

use league_core::OutOfMemory;
use std::alloc::Global;

// The first byte of the byte order mark.
const MARK: u8 = 0xEF;

// More fields than a record of a sheet or a feed has. A longer list grows.
const USUAL_WIDTH: usize = 8;

/// Whether a byte stands in the text that means more to csv than itself, a comma apart.
pub fn has_sign(text: &[u8]) -> bool
    ensures { result ≡ has_sign text.now }
{
    text.iter()
        .any(|byte| matches!(*byte, b'"' | b'\r' | b'\n' | MARK))
}

/// The text without the commas at its end: they end empty fields, which do not count.
pub fn without_commas(text: &[u8]) -> &[u8]
    ensures { result.now ≡ without_commas text.now }
{
    let mut end = 0;
    for (place, byte) in text.iter().enumerate() {
        if *byte != b',' {
            end = place + 1;
        }
    }
    &text[..end]
}

/// The fields of a text, between its commas.
pub fn cut_fields(alloc: Global, text: &[u8]) -> Result<Vec<Vec<u8>>, OutOfMemory>
    ensures { IfOk result (λ list. map (λ bytes. bytes.items) list.items
        ≡ between_commas text.now) }
{
    let mut list = Vec::with_capacity(alloc, USUAL_WIDTH)?;
    let mut start = 0;
    for (place, byte) in text.iter().enumerate() {
        if *byte == b',' {
            list.push(text[start..place].to_vec(alloc)?)?;
            start = place + 1;
        }
    }
    list.push(text[start..].to_vec(alloc)?)?;
    Ok(list)
}
