//! Lines that are too long.

use crate::line_telling::lines_told;
use crate::rows::{compare, number, part, rows};
use std::alloc::Global;
use std::process::Abort;
use std::test::Fail;

// What stands before the letters, how many there are, what follows, and the end of the answers.
// The bytes of a comment, of the byte order mark and of a CR count.
const LONG: &[u8] = b"#~1023~\nb~b2|.3.3@~1024~\nb~b2|.3.3@~1025~\nb~>1>1@#~1024~\nb~>1>1@\
    #~1024~~>1>1@#~1022~\r\nb~b2|.3.3@#~1023~\r\nb~>1>1@\xef\xbb\xbf#~1020~\nb~b2|.3.3@\
    \xef\xbb\xbf#~1021~\nb~>1>1@a\n\n#~1024~\nb~a1|>3>3";

fn add_row(row: &[u8], input: &mut Vec<u8>) -> Result<(), Fail> {
    input.extend_from_slice(part(row, 0))?;
    for _ in 0..number(row, 1)? {
        input.push(b'x')?;
    }
    Ok(input.extend_from_slice(part(row, 2))?)
}

fn told(alloc: Global, row: &[u8]) -> Result<Vec<u8>, Fail> {
    let mut input = Vec::new(alloc);
    add_row(row, &mut input)?;
    lines_told(alloc, input.as_slice(), 1000, &[])
}

fn check_row(rt: &impl Abort, alloc: Global, row: &[u8]) -> Result<(), Fail> {
    let out = told(alloc, row)?;
    let wanted = part(row, 3);
    compare(
        rt,
        row,
        &out[out.len() - wanted.len().min(out.len())..],
        wanted,
    );
    Ok(())
}

#[test]
fn a_line_of_1025_bytes_stops_an_input(rt: HostRuntime) -> Result<(), Fail> {
    for row in rows(rt.alloc(), LONG)? {
        check_row(&rt, rt.alloc(), row)?;
    }
    Ok(())
}
