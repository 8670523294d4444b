//! Cuts that are sought one after another with one keep: what the search before left changes none.

use crate::cuts::league::{Cuts, cuts_of};
use crate::cuts::worked::{ALREADY_LEVEL, after, before, first_place};
use flow_bound::FlowKeep;
use league_core::{Claim, ClubSet, Literal, Test};
use std::alloc::Global;
use std::process::Abort;
use std::test::Fail;

// Asserts both cuts if A is asked about the first place.
fn check(
    rt: &impl Abort,
    alloc: Global,
    matches: &[u8],
    literals: &[Literal],
    keep: &mut FlowKeep,
    wanted: Cuts,
) -> Result<(), Fail> {
    let ask = first_place(Claim::Inside);
    let cuts = cuts_of(rt, alloc, matches, literals, &ask, keep)?;
    assert!(rt; cuts == Some(wanted));
    Ok(())
}

fn low(bits: u32) -> Cuts {
    (Some(ClubSet { bits }), None)
}

fn high(bits: u32) -> Cuts {
    (None, Some(ClubSet { bits }))
}

// With nothing kept, with what the zone of one literal left, and with what this zone itself left.
fn check_level(rt: &impl Abort, alloc: Global, keep: &mut FlowKeep) -> Result<(), Fail> {
    let zone = [after(1), after(2)];
    check(rt, alloc, ALREADY_LEVEL, &[after(1)], keep, (None, None))?;
    check(rt, alloc, ALREADY_LEVEL, &zone, keep, low(6))?;
    check(rt, alloc, ALREADY_LEVEL, &zone, keep, low(6))
}

#[test]
fn level_rivals_are_found_from_what_a_shorter_zone_left(rt: HostRuntime) -> Result<(), Fail> {
    let mut keep = FlowKeep::new();
    check_level(&rt, rt.alloc(), &mut keep)
}

const IN_A_ROW: &[u8] = b"match,B,E\nmatch,C,E\nmatch,C,F\nmatch,D,E\nmatch,D,F\nmatch,A,F\n\
    match,B,C\nmatch,C,D\nline,1\nseason\nresult,1,1,0\nresult,2,0,0\nresult,3,0,0\n\
    result,4,0,0\nresult,5,0,0\n";

const C_DRAWS_D: Test = Test::Draw { fixture: 7 };

fn in_a_row(yes: bool) -> [Literal; 4] {
    let test = C_DRAWS_D;
    [after(1), after(2), after(3), Literal { test, yes }]
}

// A can have 3 points; B has 3, C and D have 2, and B-C and C-D are open. The three have at least
// 11, the two of a match 7 or 6. If C-D has a winner the three have 12, and the flow before is one
// still. If it is drawn, C has 3 as well, B and C have 8 together, and D adds no more than it may.
fn check_row(rt: &impl Abort, alloc: Global, keep: &mut FlowKeep) -> Result<(), Fail> {
    let rivals = [after(1), after(2), after(3)];
    check(rt, alloc, IN_A_ROW, &rivals, keep, low(14))?;
    check(rt, alloc, IN_A_ROW, &in_a_row(false), keep, low(14))?;
    check(rt, alloc, IN_A_ROW, &in_a_row(true), keep, low(6))
}

const BOTH_SHORT: &[u8] = b"match,A,E\nmatch,A,F\nmatch,B,E\nmatch,C,E\nmatch,B,C\nline,1\nseason\n\
    result,1,1,0\nresult,2,1,0\nresult,3,1,0\nresult,4,1,0\n";

// A has 6 points, B and C have 3 each and play each other: either may come up to 6, but not both.
// What this leaves is of the other cut, and the search after it of another league.
#[test]
fn what_other_searches_left_changes_no_cut(rt: HostRuntime) -> Result<(), Fail> {
    let mut keep = FlowKeep::new();
    let zone = [before(1), before(2)];
    check_row(&rt, rt.alloc(), &mut keep)?;
    check(&rt, rt.alloc(), BOTH_SHORT, &zone, &mut keep, high(6))?;
    check_row(&rt, rt.alloc(), &mut keep)
}
