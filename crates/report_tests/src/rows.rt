//! Rows against the texts that Python's csv module writes for them with a line feed at the end;
//! each is read back by csv.

use cert_text::write_row;
use csv::{ByteRecord, Reader, ReaderBuilder};
use std::alloc::Global;
use std::test::Fail;

// Whether a row of these fields has this text, and csv reads the text as them.
fn comes_back(alloc: Global, fields: &[&str], wanted: &str) -> Result<bool, Fail> {
    let text = row(alloc, fields)?;
    Ok(text.as_slice() == wanted.as_bytes() && reads_as(alloc, wanted.as_bytes(), fields)?)
}

fn row(alloc: Global, fields: &[&str]) -> Result<Vec<u8>, Fail> {
    let mut owned = Vec::new(alloc);
    add_fields(alloc, fields, &mut owned)?;
    written(alloc, owned.as_slice())
}

fn add_fields(alloc: Global, fields: &[&str], owned: &mut Vec<Vec<u8>>) -> Result<(), Fail> {
    for field in fields {
        owned.push(Vec::from_slice(alloc, field.as_bytes())?)?;
    }
    Ok(())
}

fn written(alloc: Global, fields: &[Vec<u8>]) -> Result<Vec<u8>, Fail> {
    if fields.is_empty() {
        return Err("a row has a field".into());
    }
    Ok(write_row(alloc, fields).map_err(|_| "memory")?)
}

fn reads_as(alloc: Global, text: &[u8], fields: &[&str]) -> Result<bool, Fail> {
    let mut reader = ReaderBuilder::new()
        .has_headers(false)
        .from_reader(alloc, text);
    gives(alloc, &mut reader, fields)
}

fn gives(alloc: Global, reader: &mut Reader<&[u8]>, fields: &[&str]) -> Result<bool, Fail> {
    let mut found = ByteRecord::new(alloc);
    gives_once(reader, &mut found, fields)
}

fn gives_once(
    reader: &mut Reader<&[u8]>,
    found: &mut ByteRecord,
    fields: &[&str],
) -> Result<bool, Fail> {
    let is_same = reader.read_byte_record(found)? && has_fields(found, fields);
    Ok(is_same && !reader.read_byte_record(found)?)
}

fn has_fields(found: &ByteRecord, fields: &[&str]) -> bool {
    let mut same = found.len() == fields.len();
    for place in 0..fields.len() {
        same = same && found.get(place) == Some(fields[place].as_bytes());
    }
    same
}

#[test]
fn names_come_back_as_they_were(rt: HostRuntime) -> Result<(), Fail> {
    for (fields, wanted) in [
        (["ask", "3", "1"].as_slice(), "ask,3,1\n"),
        (&["club", "A, B", "1"], "club,\"A, B\",1\n"),
        (
            &["club", "the \"Reds\"", "2"],
            "club,\"the \"\"Reds\"\"\",2\n",
        ),
        (&["#1 FC", " x ", "[FC]"], "#1 FC, x ,[FC]\n"),
        (&["Žďár", "北"], "Žďár,北\n"),
        (&["a", "", "b"], "a,,b\n"),
        (&["", ""], ",\n"),
        (&[""], "\"\"\n"),
        (&["a\nb", "c"], "\"a\nb\",c\n"),
        (&["\""], "\"\"\"\"\n"),
        (&["["], "[\n"),
        (&["#"], "#\n"),
    ] {
        assert!(rt; comes_back(rt.alloc(), fields, wanted)?, "{wanted}");
    }
    Ok(())
}
