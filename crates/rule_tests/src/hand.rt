//! Choices of questions with the full window, worked by hand: C is asked about the first place.

use crate::help::{asked, behind, check, chosen};
use league_core::{Claim, ClubSet, Literal, Test};
use std::alloc::Global;
use std::process::Abort;
use std::test::Fail;

/// C, X and Z can have 0 to 3 points, Y 3 to 6.
const STRONG: &[u8] = b"league,Strong,2\nclub,C,1\nclub,X,2\nclub,Y,3\nclub,Z,4\nmatch,Y,Z
match,C,Z\nmatch,Y,X\nseason\nresult,1,1,0\n";

/// C can have 3 points and Y 3 to 12; X has 6 for certain, more than C can have.
const SURE: &[u8] = b"league,Sure,2\nclub,C,1\nclub,Y,2\nclub,X,3\nclub,Z,4\nmatch,X,Z\nmatch,X,Z
match,Y,Z\nmatch,Y,Z\nmatch,Z,Y\nmatch,Y,Z\nmatch,C,Z\nseason\nresult,1,1,0\nresult,2,1,0
result,3,1,0\n";

/// C has 6 points, X 4, Z 1, Y none; Z-Y and X-Y are open. A win takes X to 7, past C, and what Z
/// and Y win takes neither that far.
const BREAKS: &[u8] = b"league,Breaks,2\nclub,C,1\nclub,X,2\nclub,Y,3\nclub,Z,4\nmatch,C,Z
match,C,Z\nmatch,X,Z\nmatch,X,Z\nmatch,Z,Y\nmatch,X,Y\nseason\nresult,1,1,0\nresult,2,1,0
result,3,1,0\nresult,4,0,0\n";

/// C has 7 points, X 4, Z 2, Y none; X-Y and Z-X are open. A home win of X takes it to 7, level
/// with C; if Z wins nobody is level, and if not X has 5 for certain.
const LEVEL: &[u8] = b"league,Level,2\nclub,C,1\nclub,X,2\nclub,Y,3\nclub,Z,4\nmatch,C,Z
match,C,Z\nmatch,C,Z\nmatch,X,Z\nmatch,X,Z\nmatch,X,Y\nmatch,Z,X\nseason\nresult,1,1,0
result,2,1,0\nresult,3,0,0\nresult,4,1,0\nresult,5,0,0\n";

/// C has 5 points, X 4, Y 3, Z none; Z-Y and Z-X are open. If Z does not beat X, X has 5 for
/// certain, level with C; nobody is level if Z wins, nor in a half of Z-Y.
const LATER: &[u8] = b"league,Later,2\nclub,C,1\nclub,X,2\nclub,Y,3\nclub,Z,4\nmatch,C,Z
match,C,Y\nmatch,C,Y\nmatch,X,Z\nmatch,X,Y\nmatch,Z,Y\nmatch,Z,X\nseason\nresult,1,1,0
result,2,0,0\nresult,3,0,0\nresult,4,1,0\nresult,5,0,0\n";

/// C and X meet once, with at most four goals a side.
const GOALS: &[u8] = b"league,Goals,4\nclub,C,1\nclub,X,2\nmatch,C,X\nseason\n";

fn full(
    rt: &impl Abort,
    alloc: Global,
    text: &[u8],
    zone: &[Literal],
    wanted: Test,
) -> Result<(), Fail> {
    let question = asked(Claim::Inside, -99, 1800);
    check(rt, alloc, text, &question, zone, wanted)
}

#[test]
fn the_strongest_rival_is_marked_first_after_a_sure_one(rt: HostRuntime) -> Result<(), Fail> {
    full(&rt, rt.alloc(), STRONG, &[], Test::Rival { club: 2 })?;
    full(&rt, rt.alloc(), SURE, &[], Test::Rival { club: 2 })
}

#[test]
fn outcomes_are_split_by_the_points_of_rivals_behind(rt: HostRuntime) -> Result<(), Fail> {
    let zone = [behind(1), behind(2), behind(3)];
    full(&rt, rt.alloc(), BREAKS, &zone, Test::Home { fixture: 5 })?;
    full(&rt, rt.alloc(), LEVEL, &zone, Test::Home { fixture: 6 })?;
    full(&rt, rt.alloc(), LATER, &zone, Test::Home { fixture: 6 })
}

// If X cannot end level with C, one half of X-Y is refuted at once, so that it comes first.
#[test]
fn a_rival_that_cannot_end_level_comes_first(rt: HostRuntime) -> Result<(), Fail> {
    let zone = [behind(1), behind(2), behind(3)];
    let question = asked(Claim::Inside, -99, 1800);
    let barred = ClubSet::single(1);
    let literal = chosen(&rt, rt.alloc(), LEVEL, &question, &zone, barred)?;
    assert_eq!(rt; literal.test, Test::Home { fixture: 5 });
    Ok(())
}

fn of_goals(
    home: bool,
    draw: bool,
    bounds: &[Literal],
    alloc: Global,
) -> Result<Vec<Literal>, Fail> {
    let won = Test::Home { fixture: 0 };
    let drawn = Test::Draw { fixture: 0 };
    let mut zone = vec![in alloc; behind(1)]?;
    zone.push(Literal {
        test: won,
        yes: home,
    })?;
    zone.push(Literal {
        test: drawn,
        yes: draw,
    })?;
    zone.extend_from_slice(bounds)?;
    Ok(zone)
}

const fn home_most(most: u8) -> Test {
    Test::HomeMost { fixture: 0, most }
}

fn bound(most: u8, yes: bool) -> Literal {
    Literal {
        test: home_most(most),
        yes,
    }
}

// The middle of the wider range of goals. A draw has 0 to 4 on either side. A home win has 1 to 4
// and 0 to 3; if A wins without a goal of the home side, it has 1 to 4.
#[test]
fn goals_are_split_in_the_middle(rt: HostRuntime) -> Result<(), Fail> {
    let alloc = rt.alloc();
    let zone = of_goals(false, true, &[], alloc)?;
    full(&rt, alloc, GOALS, &zone, home_most(2))?;
    let zone = of_goals(false, true, &[bound(2, true)], alloc)?;
    full(&rt, alloc, GOALS, &zone, home_most(1))?;
    let zone = of_goals(false, true, &[bound(2, false)], alloc)?;
    full(&rt, alloc, GOALS, &zone, home_most(3))?;
    let zone = of_goals(false, false, &[bound(0, true)], alloc)?;
    let most = 2;
    full(
        &rt,
        alloc,
        GOALS,
        &zone,
        Test::AwayMost { fixture: 0, most },
    )
}
