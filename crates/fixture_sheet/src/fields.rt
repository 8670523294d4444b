//! The fields of one line, as csv reads the line alone.

ghost use Rattle.std.specs.Prelude.{◌≡◌, ◌↔◌, false, true, [], IfOk, bytes_eq, length, option_map};
ghost use Rattle.std.specs.Prelude.{take, get_or};
ghost use Rattle.csv.specs.Machine.{next_record};
ghost use Rattle.csv.specs.Reading.{default_config, strip_bom};
ghost use Rattle.csv.specs.Records.{fields_of as row_fields};
ghost use Rattle.csv.specs.declared.parser.State.TheVariants as state;
ghost use Rattle.fixture_sheet.specs.Fields.{csv_record, field, has_return, is_blank, record_of};
ghost use Rattle.fixture_sheet.specs.Fields.{without_padding};
ghost use Rattle.fixture_sheet.specs.inside.PlainLines.{has_sign};

use crate::fault::FieldsStop;
use crate::plain_line::{cut_fields, has_sign, without_commas};
use csv::{ByteRecord, ReaderBuilder};
use league_core::OutOfMemory;
use std::alloc::Global;
use std::marker::Model;

/// A record's fields. Contracts see their bytes.
#[derive(Drop)]
pub struct Fields {
    pub list: Vec<Vec<u8>>,
}

impl Model for Fields {
    ghost use Rattle.std.specs.Prelude.{List, ℕ, map};

    ghost Value = { List (List ℕ) };

    ghost view = { λ fields. map (λ bytes. bytes.items) fields.list.items };
}

impl Fields {
    /// How many fields there are.
    pub fn len(&self) -> usize
        ensures { result ≡ length self.now }
    {
        self.list.len()
    }

    /// The field at a place, from 0; empty if there is none.
    pub fn at(&self, place: usize) -> &[u8]
        ensures { result.now ≡ field place self.now }
    {
        match self.list.get(place) {
            Some(bytes) => bytes.as_slice(),
            None => &[],
        }
    }

    /// Whether the record is of this kind: its first field is this word.
    pub fn is_kind(&self, word: &[u8]) -> bool
        ensures { result ≡ bytes_eq (field 0 self.now) word.now }
    {
        self.at(0) == word
    }
}

/// The fields of a line's content, without the empty ones at their end; none exactly when no field
/// is left.
pub fn fields_of(alloc: Global, text: &[u8]) -> Result<Option<Fields>, FieldsStop>
    ensures record { IfOk result (λ fields. fields ≡ record_of text.now) }
    ensures inner_return { result ≡ Err FieldsStop.InnerReturn ↔ (has_return text.now ≡ true) }
{
    if has_return(text) {
        return Err(FieldsStop::InnerReturn);
    }
    Ok(record_of(alloc, text)?)
}

fn has_return(text: &[u8]) -> bool
    ensures { result ≡ has_return text.now }
{
    text.iter().any(|byte| *byte == b'\r')
}

fn record_of(alloc: Global, text: &[u8]) -> Result<Option<Fields>, OutOfMemory>
    ensures { IfOk result (λ fields. fields ≡ record_of text.now) }
{
    if has_sign(text) {
        return record_by_csv(alloc, text);
    }
    plain_record(alloc, text)
}

// The record of a text in which no byte means more to csv than itself, a comma apart: csv's.
fn plain_record(alloc: Global, text: &[u8]) -> Result<Option<Fields>, OutOfMemory>
    requires plain { has_sign text.now ≡ false }
    ensures { IfOk result (λ fields. fields ≡ record_of text.now) }
{
    let counted = without_commas(text);
    if counted.is_empty() {
        return Ok(None);
    }
    let list = cut_fields(alloc, counted)?;
    Ok(Some(Fields { list }))
}

fn record_by_csv(alloc: Global, text: &[u8]) -> Result<Option<Fields>, OutOfMemory>
    ensures { IfOk result (λ fields. fields ≡ record_of text.now) }
{
    let Some(mut row) = csv_record(alloc, text)? else {
        return Ok(None);
    };
    row.truncate(kept(&row));
    if row.is_empty() {
        return Ok(None);
    }
    Ok(Some(copied(alloc, &row)?))
}

// csv says nothing of when its reader fails over a text in memory, so any failure counts as out of
// memory.
fn csv_record(alloc: Global, text: &[u8]) -> Result<Option<ByteRecord>, OutOfMemory>
    ensures { IfOk result (λ row. option_map row_fields row ≡ csv_record text.now) }
{
    let mut reader = ReaderBuilder::new()
        .has_headers(false)
        .from_reader(alloc, text);
    let mut row = ByteRecord::new(alloc);
    match reader.read_byte_record(&mut row) {
        Ok(true) => Ok(Some(row)),
        Ok(false) => Ok(None),
        Err(_) => Err(OutOfMemory),
    }
}

// How many fields stay without the empty ones at the end.
fn kept(row: &ByteRecord) -> usize
    ensures { take result (row_fields row.now) ≡ without_padding (row_fields row.now) }
{
    let mut kept = 0;
    for place in 0..row.len() {
        if !is_blank_at(row, place) {
            kept = place + 1;
        }
    }
    kept
}

fn is_blank_at(row: &ByteRecord, place: usize) -> bool
    ensures { result ≡ is_blank (get_or (row_fields row.now) place []) }
{
    match row.get(place) {
        Some(field) => field.is_empty(),
        None => true,
    }
}

fn copied(alloc: Global, row: &ByteRecord) -> Result<Fields, OutOfMemory>
    ensures { IfOk result (λ fields. fields ≡ row_fields row.now) }
{
    let mut list = Vec::with_capacity(alloc, row.len())?;
    for place in 0..row.len() {
        if let Some(field) = row.get(place) {
            list.push(field.to_vec(alloc)?)?;
        }
    }
    Ok(Fields { list })
}
