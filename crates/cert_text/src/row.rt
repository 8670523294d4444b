//! Rows of fields.

ghost use Rattle.std.specs.Prelude.{◌≡◌, ◌<◌, length, map, IfOk};
ghost use Rattle.csv.specs.Records.{fields_of};
ghost use Rattle.cert_text.specs.Rows.{text_of_row, ReadsBack};

use crate::plain_row::{are_plain, plain_row};
use csv::{ByteRecord, WriterBuilder};
use league_core::OutOfMemory;
use std::alloc::Global;

/// The row as `csv` writes it, quoted if it has to be, and ended by a line feed. A byte order mark
/// that begins the first field is lost on a reader that takes one off its input.
pub fn write_row(alloc: Global, fields: &[Vec<u8>]) -> Result<Vec<u8>, OutOfMemory>
    requires some { 0 < length fields.now }
    ensures text { IfOk result
        (λ row. row.items ≡ text_of_row (map (λ field. field.items) fields.now)) }
    ensures reads_back { IfOk result
        (λ row. ReadsBack row.items (map (λ field. field.items) fields.now)) }
{
    let row = row_of(alloc, fields)?;
    Ok(row)
}

// Without csv's writer if it would quote nothing.
fn row_of(alloc: Global, fields: &[Vec<u8>]) -> Result<Vec<u8>, OutOfMemory>
    requires some { 0 < length fields.now }
    ensures { IfOk result
        (λ row. row.items ≡ text_of_row (map (λ field. field.items) fields.now)) }
{
    if fields.len() > 1 && are_plain(fields) {
        return plain_row(alloc, fields);
    }
    let gathered = gathered(alloc, fields)?;
    written(alloc, &gathered)
}

fn gathered(alloc: Global, fields: &[Vec<u8>]) -> Result<ByteRecord, OutOfMemory>
    ensures { IfOk result (λ found. fields_of found ≡ map (λ field. field.items) fields.now) }
{
    let mut found = ByteRecord::new(alloc);
    for field in fields {
        found.push_field(field.as_slice())?;
    }
    Ok(found)
}

// A writer over memory fails only if memory runs out, so each of its refusals is returned as that.
fn written(alloc: Global, fields: &ByteRecord) -> Result<Vec<u8>, OutOfMemory>
    ensures { IfOk result (λ row. row.items ≡ text_of_row (fields_of fields.now)) }
{
    let mut writer = WriterBuilder::new().from_writer(Vec::new(alloc));
    if writer.write_byte_record(fields).is_err() {
        return Err(OutOfMemory);
    }
    match writer.into_inner() {
        Ok(row) => Ok(row),
        Err(_) => Err(OutOfMemory),
    }
}
