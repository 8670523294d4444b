//! Tables of cases as text: the rows parted by `@`, the parts of a row by `~`.

use fixture_sheet::number_written;
use std::alloc::Global;
use std::process::Abort;
use std::test::Fail;

/// The rows of a table.
pub fn rows(alloc: Global, table: &[u8]) -> Result<Vec<&[u8]>, Fail> {
    let mut found = Vec::new(alloc);
    for row in table.split(|byte| *byte == b'@') {
        found.push(row)?;
    }
    Ok(found)
}

/// The part of a row at this place, counted from 0.
pub fn part(row: &[u8], place: usize) -> &[u8] {
    row.split(|byte| *byte == b'~')
        .nth(place)
        .unwrap_or(b"".as_slice())
}

/// The number that stands there.
pub fn number(row: &[u8], place: usize) -> Result<u32, Fail> {
    Ok(number_written(part(row, place)).ok_or("no number")?)
}

/// What was read is what the row wants.
pub fn compare(rt: &impl Abort, row: &[u8], read: &[u8], wanted: &[u8]) {
    assert_eq!(rt; read, wanted, "{row:?}");
}
