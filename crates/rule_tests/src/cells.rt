//! The option that a fixture takes, against a plain list of the scores that it has left: each cell
//! that outcomes and ranges of goals up to three can leave, for what its two sides can be wished.

ghost use Rattle.std.specs.Prelude.{IsTrue};
ghost use Rattle.league_core.specs.search.Zones.{is_of_score};

use example_finish::first_option;
use league_core::{Literal, Score, Test};
use score_box::Cell;
use std::process::Abort;
use std::test::Fail;

const LIMIT: u8 = 3;

const HOME: Test = Test::Home { fixture: 0 };

const DRAW: Test = Test::Draw { fixture: 0 };

// A number for a side that is wished points, and against one that is not.
fn weighed(wished: bool, number: i32) -> i32 {
    if wished {
        number
    } else {
        0i32.wrapping_sub(number)
    }
}

fn points(scored: u8, conceded: u8) -> i32 {
    if conceded < scored {
        3
    } else {
        i32::from(scored == conceded)
    }
}

// The greater, the sooner a score is taken: by points, then by margins, then the fewer goals, then
// the more of them at home; one digit of a hundred for each.
fn merit(home: bool, away: bool, score: Score) -> i32 {
    let at_home = i32::from(score.home);
    let on_tour = i32::from(score.away);
    let margin = at_home.wrapping_sub(on_tour);
    let by_points = weighed(home, points(score.home, score.away)).wrapping_add(weighed(
        away,
        points(score.away, score.home),
    ));
    let by_margins = weighed(home, margin).wrapping_sub(weighed(away, margin));
    let by_outcome = by_points.wrapping_mul(100).wrapping_add(by_margins);
    let goals = at_home.wrapping_add(on_tour);
    let by_goals = by_outcome.wrapping_mul(100).wrapping_sub(goals);
    by_goals.wrapping_mul(100).wrapping_add(at_home)
}

fn is_sooner(home: bool, away: bool, best: Option<Score>, score: Score) -> bool {
    match best {
        Some(best) => merit(home, away, best) < merit(home, away, score),
        None => true,
    }
}

// The first of the cell's scores, of all scores in a list.
fn listed(cell: &Cell, home: bool, away: bool) -> Option<Score> {
    let mut best = None;
    for scored in 0..=LIMIT {
        for conceded in 0..=LIMIT {
            let score = Score {
                home: scored,
                away: conceded,
            };
            if cell.allows(&score) && is_sooner(home, away, best, score) {
                best = Some(score);
            }
        }
    }
    best
}

// Asserts the option for each of the four wishes; whether the cell has one.
fn check(rt: &impl Abort, cell: &Cell) -> bool {
    for home in [false, true] {
        for away in [false, true] {
            let found = first_option(cell, home, away);
            assert_eq!(rt; found, listed(cell, home, away), "{cell:?} {home} {away}");
        }
    }
    listed(cell, true, true).is_some()
}

// The cell, cut by a test of its fixture's score.
fn with(cell: Cell, test: Test, yes: bool) -> Cell
    requires { IsTrue (is_of_score test) }
{
    let mut cell = cell;
    cell.cut(&Literal { test, yes });
    cell
}

// Leaves goals of the home side from the least to the most.
fn with_home(cell: Cell, least: u8, most: u8) -> Cell {
    let cell = with(cell, Test::HomeMost { fixture: 0, most }, true);
    if least == 0 {
        return cell;
    }
    let fewer = least - 1;
    with(
        cell,
        Test::HomeMost {
            fixture: 0,
            most: fewer,
        },
        false,
    )
}

// Leaves goals of the away side from the least to the most.
fn with_away(cell: Cell, least: u8, most: u8) -> Cell {
    let cell = with(cell, Test::AwayMost { fixture: 0, most }, true);
    if least == 0 {
        return cell;
    }
    let fewer = least - 1;
    with(
        cell,
        Test::AwayMost {
            fixture: 0,
            most: fewer,
        },
        false,
    )
}

// Asserts the options of all ranges with these outcomes; how many cells have one.
fn check_ranges(rt: &impl Abort, outcomes: Cell) -> u32 {
    let mut some = 0u32;
    for home_least in 0..=LIMIT {
        for home_most in home_least..=LIMIT {
            let at_home = with_home(outcomes, home_least, home_most);
            some = some.saturating_add(check_away(rt, at_home));
        }
    }
    some
}

// The same for the ranges of the away side's goals.
fn check_away(rt: &impl Abort, at_home: Cell) -> u32 {
    let mut some = 0u32;
    for away_least in 0..=LIMIT {
        for away_most in away_least..=LIMIT {
            let cell = with_away(at_home, away_least, away_most);
            some = some.saturating_add(u32::from(check(rt, &cell)));
        }
    }
    some
}

// The outcomes are all, two of them and one alone; if a home win and a draw alone are left, the
// ranges leave them. Of the 600 cells 481 have a score.
#[test]
fn a_cell_takes_the_first_of_its_scores(rt: HostRuntime) -> Result<(), Fail> {
    let any = Cell::any(LIMIT);
    let lost = with(any, HOME, false);
    let mut some = check_ranges(&rt, any);
    some = some.saturating_add(check_ranges(&rt, lost));
    some = some.saturating_add(check_ranges(&rt, with(any, DRAW, false)));
    some = some.saturating_add(check_ranges(&rt, with(lost, DRAW, false)));
    some = some.saturating_add(check_ranges(&rt, with(any, HOME, true)));
    some = some.saturating_add(check_ranges(&rt, with(any, DRAW, true)));
    assert_eq!(&rt; some, 481);
    Ok(())
}

// A score beyond the goal limit is a cell's only one as well.
#[test]
fn a_cell_of_one_score_takes_it(rt: HostRuntime) -> Result<(), Fail> {
    let lost = Score { home: 1, away: 2 };
    assert!(&rt; check(&rt, &Cell::only(lost)));
    assert_eq!(&rt; first_option(&Cell::only(lost), true, false), Some(lost));
    let high = Score { home: 12, away: 0 };
    assert_eq!(&rt; first_option(&Cell::only(high), false, true), Some(high));
    assert!(&rt; !Cell::only(high).allows(&lost));
    Ok(())
}
