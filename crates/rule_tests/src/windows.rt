//! Choices of questions with a narrow window, worked by hand: C is asked about the first place, and
//! can have 0 to 6 points. Its matches are at home to X and away to Y; X-Y comes before both.
//!
//! As long as C can have more points than the window of `Inside`, or fewer than that of `Outside`,
//! its own matches are split first. A yes half is a win of the home side or a draw, so C gives
//! away two points at home, two or three away, and takes three at home, one at home or away. The
//! step that comes nearest to what is wanted is taken.

use crate::help::{ahead, asked, behind, check};
use league_core::{Claim, Literal, Test};
use std::alloc::Global;
use std::process::Abort;
use std::test::Fail;

const OPEN: &[u8] = b"league,Open,2\nclub,C,1\nclub,X,2\nclub,Y,3\nmatch,X,Y\nmatch,C,X\nmatch,Y,C
season\n";

// Asserts what is chosen if the club is to be inside with at most so many points.
fn inside(
    rt: &impl Abort,
    alloc: Global,
    high: i32,
    zone: &[Literal],
    wanted: Test,
) -> Result<(), Fail> {
    check(
        rt,
        alloc,
        OPEN,
        &asked(Claim::Inside, -99, high),
        zone,
        wanted,
    )
}

// The same if it is to be outside with so many at the least.
fn outside(
    rt: &impl Abort,
    alloc: Global,
    low: i32,
    zone: &[Literal],
    wanted: Test,
) -> Result<(), Fail> {
    check(
        rt,
        alloc,
        OPEN,
        &asked(Claim::Outside, low, 1800),
        zone,
        wanted,
    )
}

#[test]
fn a_club_with_too_many_points_gives_some_away(rt: HostRuntime) -> Result<(), Fail> {
    let zone = [behind(1), behind(2)];
    inside(&rt, rt.alloc(), 6, &zone, Test::Home { fixture: 0 })?;
    inside(&rt, rt.alloc(), 5, &zone, Test::Draw { fixture: 1 })?;
    inside(&rt, rt.alloc(), 3, &zone, Test::Home { fixture: 2 })?;
    inside(&rt, rt.alloc(), 2, &zone, Test::Draw { fixture: 1 })?;
    inside(&rt, rt.alloc(), 0, &zone, Test::Home { fixture: 2 })
}

#[test]
fn a_club_with_too_few_points_takes_some(rt: HostRuntime) -> Result<(), Fail> {
    let zone = [behind(1), behind(2)];
    outside(&rt, rt.alloc(), 1, &zone, Test::Draw { fixture: 1 })?;
    outside(&rt, rt.alloc(), 2, &zone, Test::Home { fixture: 1 })?;
    outside(&rt, rt.alloc(), 6, &zone, Test::Home { fixture: 1 })
}

// Points are best given to a rival that is to end before, and best taken from one behind.
#[test]
fn a_mark_of_the_opponent_decides_between_equal_steps(rt: HostRuntime) -> Result<(), Fail> {
    let alloc = rt.alloc();
    inside(
        &rt,
        alloc,
        4,
        &[behind(1), ahead(2)],
        Test::Draw { fixture: 2 },
    )?;
    outside(
        &rt,
        alloc,
        1,
        &[ahead(1), behind(2)],
        Test::Draw { fixture: 2 },
    )
}

#[test]
fn a_window_of_one_number_has_both_ends(rt: HostRuntime) -> Result<(), Fail> {
    let zone = [behind(1), behind(2)];
    let most = asked(Claim::Inside, 4, 4);
    let least = asked(Claim::Outside, 1, 1);
    let wanted = Test::Draw { fixture: 1 };
    check(&rt, rt.alloc(), OPEN, &most, &zone, wanted)?;
    check(&rt, rt.alloc(), OPEN, &least, &zone, wanted)
}
