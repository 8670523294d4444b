//! Rows that csv writes as their fields stand, with commas between them. Its writer sets up 8,192
//! bytes for each writer that is made, and nearly all rows have nothing to quote.

ghost use Rattle.std.specs.Prelude.{◌≡◌, ◌<◌, ◌++◌, ◌∷◌, [], IfOk, OnOk, length, map, not, true};
ghost use Rattle.std.specs.List.{list_all};
ghost use Rattle.csv.specs.Writing.{default_writer, needs_byte, needs_quotes, next_sep};
ghost use Rattle.cert_text.specs.Rows.{text_of_row};

use league_core::OutOfMemory;
use std::alloc::Global;

// As many bytes as most rows have. A longer row grows.
const USUAL_LENGTH: usize = 48;

/// Whether there is nothing to quote in any of these fields.
pub fn are_plain(fields: &[Vec<u8>]) -> bool
    ensures { result ≡ list_all (λ it. not (needs_quotes default_writer it.items)) fields.now }
{
    fields.iter().all(|field| !has_mark(field.as_slice()))
}

fn has_mark(field: &[u8]) -> bool
    ensures { result ≡ needs_quotes default_writer field.now }
{
    field.iter().any(|byte| is_mark(*byte))
}

// The byte calls for quotes.
fn is_mark(byte: u8) -> bool
    ensures { result ≡ needs_byte default_writer byte }
{
    byte == b',' || byte == b'"' || byte == b'\r' || byte == b'\n'
}

/// The row of two fields or more with nothing to quote.
pub fn plain_row(alloc: Global, fields: &[Vec<u8>]) -> Result<Vec<u8>, OutOfMemory>
    requires some { 1 < length fields.now }
    requires plain { list_all (λ it. not (needs_quotes default_writer it.items)) fields.now ≡ true }
    ensures { IfOk result (λ row. row.items ≡ text_of_row (map (λ field. field.items) fields.now)) }
{
    let mut row = Vec::with_capacity(alloc, USUAL_LENGTH)?;
    for place in 0..fields.len() {
        push_field(&mut row, place, fields[place].as_slice())?;
    }
    row.push(b'\n')?;
    Ok(row)
}

// Puts the field of a place at the end, a comma before it if another is before it.
fn push_field(row: &mut Vec<u8>, place: usize, field: &[u8]) -> Result<(), OutOfMemory>
    ensures { OnOk result
        (row.new.items ≡ row.old.items ++ (next_sep default_writer place ++ field.now)) }
{
    if place > 0 {
        row.push(b',')?;
    }
    row.extend_from_slice(field)?;
    Ok(())
}
