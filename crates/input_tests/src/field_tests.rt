//! Fields of lines. What is wanted is what the csv crate for Rust reads, with the empty fields at
//! the end left out: each field with `|` after it, `-` for no field, `^` for a CR.

use crate::rows::{compare, part, rows};
use fixture_sheet::{
    Draft, Fields, FieldsStop, Progress, RecordStop, SheetFault, fields_of, name_of, number_within,
    number_written, take_content,
};
use league_core::Sheet;
use result_log::FeedFault;
use std::alloc::Global;
use std::process::Abort;
use std::test::Fail;

// A line, and its fields.
const FIELDS: &[u8] = b"~-@,~-@,\"\",,~-@\xef\xbb\xbf~-@a~a|@a,,b,,~a||b|@,a~|a|@\
    \"a,b\",c~a,b|c|@\"a\"\"b\"~a\"b|@\"a\"b,c~ab|c|@a\"b~a\"b|@\x20\"a\" ~ \"a\" |@\
    \"ab,c~ab,c|@#a,b~#a|b|@\xef\xbb\xbfa,b~a|b|@\
    \xef\xbb\xbf\xef\xbb\xbfa~\xef\xbb\xbfa|@a,\xef\xbb\xbf~a|\xef\xbb\xbf|@\
    \xff,\x00~\xff|\x00|@\r~^@a,b\r~^@\"a\rb\"~^";

fn told(alloc: Global, text: &[u8]) -> Result<Vec<u8>, Fail> {
    let read = fields_of(alloc, text);
    told_of(alloc, &read)
}

fn told_of(alloc: Global, read: &Result<Option<Fields>, FieldsStop>) -> Result<Vec<u8>, Fail> {
    match read {
        Ok(Some(fields)) => joined(alloc, fields),
        Ok(None) => Ok(b"-".to_vec(alloc)?),
        Err(FieldsStop::InnerReturn) => Ok(b"^".to_vec(alloc)?),
        Err(FieldsStop::OutOfMemory) => Ok(b"no memory".to_vec(alloc)?),
    }
}

fn joined(alloc: Global, fields: &Fields) -> Result<Vec<u8>, Fail> {
    let mut out = Vec::new(alloc);
    for place in 0..fields.len() {
        out.extend_from_slice(fields.at(place))?;
        out.push(b'|')?;
    }
    Ok(out)
}

fn check_row(rt: &impl Abort, alloc: Global, row: &[u8]) -> Result<(), Fail> {
    let out = told(alloc, part(row, 0))?;
    compare(rt, row, out.as_slice(), part(row, 1));
    Ok(())
}

#[test]
fn fields_are_those_of_csv_without_padding(rt: HostRuntime) -> Result<(), Fail> {
    for row in rows(rt.alloc(), FIELDS)? {
        check_row(&rt, rt.alloc(), row)?;
    }
    Ok(())
}

#[test]
fn numbers_and_names_are_read(rt: HostRuntime) {
    assert!(rt; (number_written(b"000999"), number_written(b"0000999")) == (Some(999), None));
    assert!(rt; (number_within(1, 20, b"020"), number_within(1, 20, b"21")) == (Some(20), None));
    assert!(rt; name_of(b"Astra \xc3\x89") == Some("Astra \u{c9}"));
    assert!(rt; name_of(b"Astra \xc3").is_none());
}

// The sheet so far, after one content more.
fn taken(alloc: Global, draft: Option<Draft>, content: &[u8]) -> Result<Option<Draft>, Fail> {
    match take_content(alloc, draft, content) {
        Ok(Progress::SoFar(next)) => Ok(next),
        _ => Err(Fail::from("refused")),
    }
}

fn drafted(alloc: Global) -> Result<Option<Draft>, Fail> {
    let league = taken(alloc, None, b"league,T,1")?;
    let first = taken(alloc, league, b"club,A,1")?;
    let same = taken(alloc, first, b",,")?;
    taken(alloc, same, b"club,B,2")
}

// How many clubs a whole sheet has; none if it is not whole.
fn clubs_in(progress: &Result<Progress<Draft, Sheet>, RecordStop<SheetFault>>) -> Option<usize> {
    match progress {
        Ok(Progress::Whole(sheet)) => Some(sheet.clubs.len()),
        _ => None,
    }
}

fn clubs_taken(alloc: Global) -> Result<Option<usize>, Fail> {
    let last = take_content(alloc, drafted(alloc)?, b"season");
    Ok(clubs_in(&last))
}

#[test]
fn contents_are_taken_one_by_one(rt: HostRuntime) -> Result<(), Fail> {
    assert_eq!(rt; clubs_taken(rt.alloc())?, Some(2));
    Ok(())
}

fn prints_its_code(alloc: Global, fault: SheetFault) -> Result<bool, Fail> {
    let printed = format!(in alloc; "{fault}")?;
    Ok(printed.as_str() == fault.code())
}

#[test]
fn refusals_print_as_their_codes(rt: HostRuntime) -> Result<(), Fail> {
    for fault in [
        SheetFault::NoLeague,
        SheetFault::BadField,
        SheetFault::ClubTwice,
        SheetFault::UnknownClub,
        SheetFault::SelfMatch,
        SheetFault::LineRange,
        SheetFault::TooMany,
        SheetFault::TooFewClubs,
        SheetFault::UnknownRecord,
        SheetFault::WrongWidth,
        SheetFault::LineTwice,
        SheetFault::NoSeason,
    ] {
        assert!(rt; prints_its_code(rt.alloc(), fault)?, "{fault}");
    }
    Ok(())
}

fn prints_its_feed_code(alloc: Global, fault: FeedFault) -> Result<bool, Fail> {
    let printed = format!(in alloc; "{fault}")?;
    Ok(printed.as_str() == fault.code())
}

#[test]
fn refusals_of_a_feed_print_as_their_codes(rt: HostRuntime) -> Result<(), Fail> {
    for fault in [
        FeedFault::UnknownRecord,
        FeedFault::WrongWidth,
        FeedFault::UnknownFixture,
        FeedFault::BadGoals,
        FeedFault::AlreadyPlayed,
        FeedFault::NotPlayed,
        FeedFault::LogFull,
        FeedFault::UnknownClub,
        FeedFault::BadPoints,
    ] {
        assert!(rt; prints_its_feed_code(rt.alloc(), fault)?, "{fault}");
    }
    Ok(())
}
