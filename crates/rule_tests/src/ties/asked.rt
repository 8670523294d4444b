//! The reason in one zone worked by hand. A drew 0:0 with B and C and beats D 1:0, B and C beat D
//! 3:0. When B and C draw, both are ahead of A: after 0:0 by the difference over all matches, after
//! 1:1 by the goals of the group.

ghost use Rattle.std.specs.Prelude.{◌<◌};
ghost use Rattle.league_core.specs.game.Seasons.{IsLeague};

use super::leagues::{Game, league_of};
use super::zones::zone_of;
use league_core::Order::{HeadFirst, OverallFirst};
use league_core::{Claim, ClubSet, Order, Question, Reason, Zone};
use sample_leagues::{Sample, is_of_sheet};
use score_box::{ZoneBox, own_least, own_most};
use std::alloc::Global;
use std::process::Abort;
use std::test::Fail;
use tie_bound::{holds, tie_reason};

/// The order of the criteria, the outcome of B and C and the goals of each, the marks of rivals,
/// the line and side that is asked for A, and whether the reason holds.
type Asked = (
    Order,
    char,
    (u8, u8),
    &'static [(u8, bool)],
    u8,
    Claim,
    bool,
);

// Worked by hand. A has five points like B and C, D has none.
const ROWS: [Asked; 9] = [
    (HeadFirst, 'D', (1, 1), &[], 1, Claim::Inside, true),
    (OverallFirst, 'D', (1, 1), &[], 1, Claim::Inside, true),
    // After either draw the ranges of goals meet; the difference is three against one.
    (HeadFirst, 'D', (0, 1), &[], 1, Claim::Inside, false),
    (OverallFirst, 'D', (0, 1), &[], 1, Claim::Inside, true),
    // Two rivals are ahead, the line has three places.
    (HeadFirst, 'D', (0, 0), &[], 3, Claim::Inside, false),
    // B is surely ahead, and marked behind.
    (
        HeadFirst,
        'D',
        (0, 0),
        &[(1, false)],
        3,
        Claim::Inside,
        true,
    ),
    // A marked rival counts if the order is open, and not if an outcome is.
    (HeadFirst, 'D', (0, 1), &[(1, true)], 1, Claim::Inside, true),
    (
        HeadFirst,
        '-',
        (0, 1),
        &[(1, true)],
        1,
        Claim::Inside,
        false,
    ),
    // D alone is surely behind A, so that A is among the first three.
    (HeadFirst, 'D', (0, 0), &[], 3, Claim::Outside, true),
];

fn games_of(asked: &Asked) -> [Game; 6] {
    let (_, outcome, goals, _, _, _, _) = *asked;
    [
        (0, 1, 'D', (0, 0), (0, 0)),
        (0, 2, 'D', (0, 0), (0, 0)),
        (1, 3, 'H', (3, 3), (0, 0)),
        (2, 3, 'H', (3, 3), (0, 0)),
        (0, 3, 'H', (1, 1), (0, 0)),
        (1, 2, outcome, goals, goals),
    ]
}

fn check_box(rt: &impl Abort, zone_box: &ZoneBox, asked: &Asked) {
    let (_, outcome, _, _, line, claim, wanted) = *asked;
    let question = Question {
        club: 0,
        line,
        claim,
        low: -99,
        high: 1800,
    };
    assert!(rt; (question.club as usize) < zone_box.sheet().clubs.len());
    assert!(rt; zone_box.has_finish());
    assert!(rt;
        tie_reason(zone_box, &question) == wanted,
        "{outcome} {line}"
    );
    assert_eq!(rt; holds(zone_box, &question, &Reason::Tie), wanted);
}

fn check_zone(
    rt: &impl Abort,
    alloc: Global,
    sample: &Sample,
    zone: &Zone,
    asked: &Asked,
) -> Result<(), Fail>
    requires { IsLeague sample.now.sheet sample.now.season }
{
    assert!(rt; is_of_sheet(&sample.sheet, zone.literals.as_slice()));
    let zone_box = ZoneBox::of(alloc, &sample.sheet, &sample.season, zone)?;
    check_box(rt, &zone_box, asked);
    Ok(())
}

fn check_league(
    rt: &impl Abort,
    alloc: Global,
    sample: &Sample,
    games: &[Game],
    asked: &Asked,
) -> Result<(), Fail>
    requires { IsLeague sample.now.sheet sample.now.season }
{
    let zone = zone_of(alloc, games, asked.3)?;
    check_zone(rt, alloc, sample, &zone, asked)
}

fn check(rt: &impl Abort, alloc: Global, asked: &Asked) -> Result<(), Fail> {
    let games = games_of(asked);
    let sample = league_of(alloc, asked.0, &games)?;
    check_league(rt, alloc, &sample, &games, asked)
}

/// B, C and D are marked behind A.
const MARKED: [(u8, bool); 3] = [(1, false), (2, false), (3, false)];

/// A reason, the window that is asked for, and whether it holds.
type Given = (Reason, i32, i32, bool);

// Worked by hand. A beats B, and the other match is open: A has three points, B none, C and D two
// or three together.
const GIVEN: [Given; 9] = [
    (Reason::Count, -99, 1800, true),
    (Reason::Window, -99, 1800, false),
    (Reason::Window, 4, 1800, true),
    (Reason::Window, -99, 2, true),
    (Reason::Low(ClubSet { bits: 12 }), -99, 1, false),
    (Reason::Low(ClubSet { bits: 12 }), -99, 0, true),
    (Reason::Low(ClubSet { bits: 0 }), -99, -9, false),
    // B, C and D are not marked before A.
    (Reason::High(ClubSet { bits: 2 }), 4, 1800, false),
    (Reason::Tie, -99, 1800, false),
];

// A beats B, and C and D are open.
const TWO_GAMES: [Game; 2] = [(0, 1, 'H', (0, 9), (0, 9)), (2, 3, '-', (0, 9), (0, 9))];

fn check_reason(rt: &impl Abort, zone_box: &ZoneBox, given: &Given) {
    let (reason, low, high, wanted) = *given;
    let question = Question {
        club: 0,
        line: 1,
        claim: Claim::Outside,
        low,
        high,
    };
    assert!(rt; (question.club as usize) < zone_box.sheet().clubs.len());
    let found = holds(zone_box, &question, &reason);
    assert!(rt; found == wanted, "{low} {high}");
    assert!(rt; zone_box.has_finish());
    assert_eq!(rt; own_most(zone_box, &question), 3.min(high));
    assert_eq!(rt; own_least(zone_box, &question), 3.max(low));
}

fn check_given(rt: &impl Abort, zone_box: &ZoneBox) {
    for given in GIVEN.iter() {
        check_reason(rt, zone_box, given);
    }
}

fn check_given_in(rt: &impl Abort, alloc: Global, sample: &Sample, zone: &Zone) -> Result<(), Fail>
    requires { IsLeague sample.now.sheet sample.now.season }
{
    assert!(rt; is_of_sheet(&sample.sheet, zone.literals.as_slice()));
    let zone_box = ZoneBox::of(alloc, &sample.sheet, &sample.season, zone)?;
    check_given(rt, &zone_box);
    Ok(())
}

fn check_marked(rt: &impl Abort, alloc: Global, sample: &Sample) -> Result<(), Fail>
    requires { IsLeague sample.now.sheet sample.now.season }
{
    let zone = zone_of(alloc, &TWO_GAMES, &MARKED)?;
    check_given_in(rt, alloc, sample, &zone)
}

#[test]
fn a_given_reason_holds_where_the_sums_say_so(rt: HostRuntime) -> Result<(), Fail> {
    let sample = league_of(rt.alloc(), HeadFirst, &TWO_GAMES)?;
    check_marked(&rt, rt.alloc(), &sample)
}

#[test]
fn the_reason_holds_where_points_and_criteria_say_so(rt: HostRuntime) -> Result<(), Fail> {
    for asked in ROWS.iter() {
        check(&rt, rt.alloc(), asked)?;
    }
    Ok(())
}
