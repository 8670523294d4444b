//! Feeds after a sheet of two clubs, with faults of the source, and records after as many events
//! as a feed may have. What a feed is read as without a fault stands in rows of the program.

use crate::feed_telling::{is_of, told};
use crate::rows::{compare, number, part, rows};
use crate::sheet_telling::sheet_of;
use fixture_sheet::{Fields, fields_of};
use league_core::limits::MOST_EVENTS;
use league_core::{Event, Score, Season, Sheet};
use result_log::{Entry, read_event};
use std::alloc::Global;
use std::process::Abort;
use std::test::Fail;

// Six lines of 56 bytes, so that a feed begins at line 7.
const TINY: &[u8] = b"league,Tiny,1\nclub,A,1\nclub,B,2\nmatch,A,B\nline,1\nseason\n";

const SHEET: &[u8] = b"league,T,1\nclub,A,1\nclub,B,2\nmatch,A,B\nmatch,B,A\nline,1\nseason\n";

const FEED: &[u8] = b"result,1,0,0\n,,\nask";

// From which call on a fault is tried, before which no more, and what is read. In pieces of one
// byte the sheet takes calls 1 to 56. Then calls 57 to 69 give the result with its LF, calls 70 to
// 72 the line of empty fields, 73 to 75 the ask, and each later one the end.
const FAULTS: &[u8] = b"57~70~! 1=0:0 ask1 .@70~77~1=0:0 ! ask1 .@77~78~1=0:0 ask1 ! .@\
    78~80~1=0:0 ask1 .";

fn behind(alloc: Global, call: u64) -> Result<Vec<u8>, Fail> {
    let mut input = Vec::from_slice(alloc, TINY)?;
    input.extend_from_slice(FEED)?;
    told(alloc, input.as_slice(), &[call])
}

fn check_call(rt: &impl Abort, alloc: Global, row: &[u8], call: u32) -> Result<(), Fail> {
    let out = behind(alloc, u64::from(call))?;
    compare(rt, row, out.as_slice(), part(row, 2));
    Ok(())
}

fn check_row(rt: &impl Abort, alloc: Global, row: &[u8]) -> Result<(), Fail> {
    for call in number(row, 0)?..number(row, 1)? {
        check_call(rt, alloc, row, call)?;
    }
    Ok(())
}

#[test]
fn a_fault_at_any_call_loses_no_entry(rt: HostRuntime) -> Result<(), Fail> {
    for row in rows(rt.alloc(), FAULTS)? {
        check_row(&rt, rt.alloc(), row)?;
    }
    Ok(())
}

// A record after so many events in a league of two matches of which the first has ended 2:1, and
// what it is read as.
const ROOM_FOR_ONE: &[u8] = b"result,2,0,0~change@void,1~change";

const FULL: &[u8] = b"result,2,0,0~log_full@result,1,0,0~already_played@fix,2,0,0~not_played@\
    void,2~not_played@result,2,100,0~bad_goals@deduct,A,3~log_full@deduct,C,3~unknown_club@\
    deduct,A,100~bad_points@ask~ask@proofs~proofs@report~unknown_record";

const PAST_ALL: &[u8] = b"void,1~log_full";

fn read_as(sheet: &Sheet, season: &Season, events: u64, fields: &Fields) -> &'static str {
    if !is_of(season, sheet) {
        return "a season of another sheet";
    }
    match read_event(sheet, season, events, fields, true) {
        Ok(Entry::Change(_)) => "change",
        Ok(Entry::Ask) => "ask",
        Ok(Entry::Proofs) => "proofs",
        Ok(Entry::End) => "end",
        Err(fault) => fault.code(),
    }
}

fn record_read_as(
    alloc: Global,
    sheet: &Sheet,
    season: &Season,
    events: u64,
    record: &[u8],
) -> Result<&'static str, Fail> {
    match fields_of(alloc, record) {
        Ok(Some(fields)) => Ok(read_as(sheet, season, events, &fields)),
        _ => Err("no record".into()),
    }
}

fn check_records(
    rt: &impl Abort,
    alloc: Global,
    sheet: &Sheet,
    season: &Season,
    events: u64,
    table: &[u8],
) -> Result<(), Fail> {
    for row in rows(alloc, table)? {
        let found = record_read_as(alloc, sheet, season, events, part(row, 0))?;
        compare(rt, row, found.as_bytes(), part(row, 1));
    }
    Ok(())
}

fn check_limits(
    rt: &impl Abort,
    alloc: Global,
    sheet: &Sheet,
    season: &Season,
) -> Result<(), Fail> {
    let most = u64::from(MOST_EVENTS);
    check_records(rt, alloc, sheet, season, most - 1, ROOM_FOR_ONE)?;
    check_records(rt, alloc, sheet, season, most, FULL)?;
    check_records(rt, alloc, sheet, season, u64::MAX, PAST_ALL)
}

fn check_played(rt: &impl Abort, alloc: Global, sheet: &Sheet) -> Result<(), Fail> {
    let mut season = Season::unplayed(alloc, 2, 2)?;
    let score = Score { home: 2, away: 1 };
    season.apply(&Event::Set { fixture: 0, score });
    check_limits(rt, alloc, sheet, &season)
}

#[test]
fn a_feed_has_at_most_100000_events(rt: HostRuntime) -> Result<(), Fail> {
    let sheet = sheet_of(rt.alloc(), SHEET)?;
    check_played(&rt, rt.alloc(), &sheet)
}
