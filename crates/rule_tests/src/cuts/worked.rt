//! Leagues that can be added up on paper.

use crate::cuts::league::{Cuts, cuts_of};
use flow_bound::FlowKeep;
use league_core::{Claim, ClubSet, Literal, Question, Test};
use std::alloc::Global;
use std::process::Abort;
use std::test::Fail;

/// Whether A is inside the first place, or outside, with any points.
pub fn first_place(claim: Claim) -> Question {
    Question {
        club: 0,
        line: 1,
        claim,
        low: -99,
        high: 1800,
    }
}

/// The rival is to rank before A.
pub fn before(club: u8) -> Literal {
    Literal {
        test: Test::Rival { club },
        yes: true,
    }
}

/// The rival is not to.
pub fn after(club: u8) -> Literal {
    Literal {
        test: Test::Rival { club },
        yes: false,
    }
}

fn found(
    rt: &impl Abort,
    alloc: Global,
    matches: &[u8],
    literals: &[Literal],
    ask: &Question,
) -> Result<Cuts, Fail> {
    Ok(cuts_of(rt, alloc, matches, literals, ask, &mut FlowKeep::new())?.ok_or("no finish")?)
}

// Asserts the floor cut alone.
fn check_low(
    rt: &impl Abort,
    alloc: Global,
    matches: &[u8],
    literals: &[Literal],
    ask: &Question,
    wanted: Option<ClubSet>,
) -> Result<(), Fail> {
    let cuts = found(rt, alloc, matches, literals, ask)?;
    assert!(rt; cuts.0 == wanted);
    Ok(())
}

// Asserts both cuts.
fn check(
    rt: &impl Abort,
    alloc: Global,
    matches: &[u8],
    literals: &[Literal],
    ask: &Question,
    low: Option<ClubSet>,
    high: Option<ClubSet>,
) -> Result<(), Fail> {
    let cuts = found(rt, alloc, matches, literals, ask)?;
    assert!(rt; cuts == (low, high));
    Ok(())
}

/// B and C have 3 points each and still play each other, A can have 3.
pub const ALREADY_LEVEL: &[u8] = b"match,B,D\nmatch,C,D\nmatch,A,D\nmatch,B,C\nline,1\nseason\n\
    result,1,1,0\nresult,2,1,0\n";

// Either of B and C may stay at 3; together they have at least 8, and twice 3 is 6.
#[test]
fn two_rivals_that_play_each_other_have_too_many(rt: HostRuntime) -> Result<(), Fail> {
    let alloc = rt.alloc();
    let ask = first_place(Claim::Inside);
    let both = Some(ClubSet { bits: 6 });
    check(
        &rt,
        alloc,
        ALREADY_LEVEL,
        &[after(1), after(2)],
        &ask,
        both,
        None,
    )?;
    check_low(&rt, alloc, ALREADY_LEVEL, &[after(2)], &ask, None)
}

const DRAWN_WITH_A: &[u8] = b"match,A,B\nmatch,A,C\nmatch,B,D\nmatch,C,D\nmatch,A,D\nmatch,B,C\n\
    line,1\nseason\nresult,1,0,0\nresult,2,0,0\nresult,3,3,0\nresult,4,3,0\n";

// A has 2 points and can have 5, B and C have 4 each and still play each other: at least 10
// together, which is just twice 5.
#[test]
fn as_many_as_allowed_is_no_cut(rt: HostRuntime) -> Result<(), Fail> {
    let alloc = rt.alloc();
    let ask = first_place(Claim::Inside);
    let zone = [after(1), after(2)];
    check_low(&rt, alloc, DRAWN_WITH_A, &zone, &ask, None)?;
    let window = Question { high: 4, ..ask };
    let both = Some(ClubSet { bits: 6 });
    check_low(&rt, alloc, DRAWN_WITH_A, &zone, &window, both)
}

const WON_TWICE: &[u8] = b"match,A,B\nmatch,A,B\nmatch,A,B\nmatch,C,D\nmatch,E,F\nline,1\nseason\n\
    result,1,1,0\nresult,2,1,0\n";

// A beat B twice and has at least 6 points; B can have 3.
#[test]
fn a_rival_alone_that_cannot_come_up(rt: HostRuntime) -> Result<(), Fail> {
    let ask = first_place(Claim::Outside);
    let alone = Some(ClubSet { bits: 2 });
    check(&rt, rt.alloc(), WON_TWICE, &[before(1)], &ask, None, alone)
}
