//! Sheets that are read and inputs that are refused, in pieces of any size and with faults of the
//! source. A refusal has its line and the code that the order of the tests gives.

ghost use Rattle.std.specs.Prelude.{◌<◌};

use crate::rows::{compare, number, part, rows};
use crate::sheet_telling::told;
use std::alloc::Global;
use std::process::Abort;
use std::test::Fail;

// Two clubs, one match, one line, as a league's first day.
const TINY: &[u8] = b"league,Tiny,1\nclub,A,1\nclub,B,2\nmatch,A,B\nline,1\nseason\nask\n";

// An input, what is read, and what comes then.
const SHEETS: &[u8] = b"league,Tiny,1\nclub,A,1\nclub,B,2\nmatch,A,B\nline,1\nseason\nask\n~\
    Tiny 1 2000|A 1;B 2;|0-1;|1; 7:ask@\
    \xef\xbb\xbfleague,\"Cup, North\",1,\r\n# group of two\r\nclub,\"A, first\",1,\r\n\
    club,B,2,\r\nmatch,\"A, first\",B,\r\nline,1,,\r\nseason,,,\r\nresult,1,0,0\r\n~\
    Cup, North 1 2000|A, first 1;B 2;|0-1;|1; 8:result,1,0,0@\
    league,T,020,050000\nclub,a,000999\n,\"\",\n\xef\xbb\xbfclub,A,1\nclub,\xc3\xa9,1\n\
    season~T 20 50000|a 999;A 1;\xc3\xa9 1;|| .7@\
    league,T,1,9,overall_first\nclub,A,1\nclub,B,2\nseason~T 1 9|overall|A 1;B 2;|| .5@\
    league,T,1,9,head_first,\nclub,A,1\nclub,B,2\nseason~T 1 9|A 1;B 2;|| .5";

// An input that is refused, what is returned, and what comes then.
const REFUSED: &[u8] = b"# none\n\n,,\n~4,no_league .4@\
    club,A,1\nx~1,no_league 2:x@\
    lea\rgue,T,1~1,no_league .2@\
    league,T,1~2,no_season .2@\
    league,,0,x,y,z\n~1,wrong_width .2@\
    league,,1~1,bad_field .2@\
    league,T,21~1,bad_field .2@\
    league,T,1,50001~1,bad_field .2@\
    league,T,1,9,other~1,bad_field .2@\
    league,T,1,,overall_first~1,bad_field .2@\
    league,T,1,9,Head_first~1,bad_field .2@\
    league,T,1\nline,x,y~2,too_few_clubs .3@\
    league,T,1\nclub,A,1\nmatch,A,A~3,too_few_clubs .4";

// Three lines, so that what comes after them begins at line 4.
const HEAD: &[u8] = b"league,T,1\nclub,A,1\nclub,B,2\n";

// The same after the head.
const BEHIND_HEAD: &[u8] = b"league,T,1~4,unknown_record .5@\
    ask\nx~4,unknown_record 5:x@\
    cl\rub,C,3~4,unknown_record .5@\
    match,A,B\nclub,C~5,unknown_record .6@\
    club,A,0,x~4,wrong_width .5@\
    club,\"C,3~4,wrong_width .5@\
    club,A,0~4,bad_field .5@\
    club,C\x7f,3~4,bad_field .5@\
    club,C\xff,3~4,bad_field .5@\
    club,B,000003~4,club_twice .5@\
    match,C,C,C~4,wrong_width .5@\
    match,C,C~4,unknown_club .5@\
    match,,B~4,unknown_club .5@\
    match,B,B\nx~4,self_match 5:x@\
    line,9,9~4,wrong_width .5@\
    line,x~4,bad_field .5@\
    line,0~4,line_range .5@\
    line,1\nline,01~5,line_twice .6@\
    season,1~4,wrong_width .5@\
    ~4,no_season .4";

// The call that fails, and what is read. In pieces of 16 bytes the calls end within line 2, with
// line 3, within line 5, and with the input.
const FAULTS: &[u8] = b"1~! 1:league,Tiny,1@2~! 2:club,A,1@3~! 4:match,A,B@4~! 5:line,1@\
    5~Tiny 1 2000|A 1;B 2;|0-1;|1; 7:ask";

fn check_piece(
    rt: &impl Abort,
    alloc: Global,
    head: &[u8],
    row: &[u8],
    piece: usize,
) -> Result<(), Fail>
    requires { 0 < piece }
{
    let mut input = Vec::from_slice(alloc, head)?;
    input.extend_from_slice(part(row, 0))?;
    let out = told(alloc, input.as_slice(), piece, &[])?;
    compare(rt, row, out.as_slice(), part(row, 1));
    Ok(())
}

fn check_row(rt: &impl Abort, alloc: Global, head: &[u8], row: &[u8]) -> Result<(), Fail> {
    check_piece(rt, alloc, head, row, 1)?;
    check_piece(rt, alloc, head, row, 2)?;
    check_piece(rt, alloc, head, row, 7)?;
    check_piece(rt, alloc, head, row, 5000)
}

fn check_rows(rt: &impl Abort, alloc: Global, head: &[u8], table: &[u8]) -> Result<(), Fail> {
    for row in rows(alloc, table)? {
        check_row(rt, alloc, head, row)?;
    }
    Ok(())
}

#[test]
fn sheets_are_read_or_refused_in_pieces_of_any_size(rt: HostRuntime) -> Result<(), Fail> {
    check_rows(&rt, rt.alloc(), b"", SHEETS)?;
    check_rows(&rt, rt.alloc(), b"", REFUSED)?;
    check_rows(&rt, rt.alloc(), HEAD, BEHIND_HEAD)
}

fn check_fault(rt: &impl Abort, alloc: Global, row: &[u8]) -> Result<(), Fail> {
    let call = u64::from(number(row, 0)?);
    let out = told(alloc, TINY, 16, &[call])?;
    compare(rt, row, out.as_slice(), part(row, 1));
    Ok(())
}

#[test]
fn a_fault_of_the_source_loses_no_line(rt: HostRuntime) -> Result<(), Fail> {
    for row in rows(rt.alloc(), FAULTS)? {
        check_fault(&rt, rt.alloc(), row)?;
    }
    Ok(())
}
