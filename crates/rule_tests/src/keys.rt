//! Keys, and both ends of them in zones, worked by hand: by the search's box, and by the checker's
//! way. D beat E and F 1:0; E and F have not met yet, and score three goals at most. Four points
//! are taken off F.

ghost use Rattle.std.specs.Prelude.{◌<◌, IsTrue, length};
ghost use Rattle.league_core.specs.game.Seasons.{IsLeague};
ghost use Rattle.league_core.specs.search.Zones.{is_zone_of};

use check_bounds::Trail;
use club_keys::{ClubKey, KeyEnds, key_of};
use key_bounds::key_ends;
use league_core::{Literal, Test};
use sample_leagues::{Sample, is_of_sheet, sample_of};
use score_box::{Played, ZoneBox};
use std::alloc::Global;
use std::process::Abort;
use std::test::Fail;

const LEAGUE: &[u8] = b"league,Two,3\nclub,D,4\nclub,E,5\nclub,F,6\nmatch,D,E\nmatch,D,F\n\
    match,E,F\nseason\nresult,1,1,0\nresult,2,1,0\ndeduct,F,4\n";

/// A zone, a club, and the low and the high key of the club there.
type Row = (&'static [(Test, bool)], u8, [i32; 7], [i32; 7]);

const HOME: Test = Test::Home { fixture: 2 };

const DRAW: Test = Test::Draw { fixture: 2 };

const ONE_AT_HOME: Test = Test::HomeMost {
    fixture: 2,
    most: 1,
};

const ONE_AWAY: Test = Test::AwayMost {
    fixture: 2,
    most: 1,
};

const ROWS: [Row; 8] = [
    // E ends with 0:3 to 3:0 more, F, which is the away side, with as much.
    (&[], 1, [0, -4, 0, 0, 0, 0, 995], [3, 2, 3, 0, 1, 0, 995]),
    (&[], 2, [-4, -4, 0, 0, 0, 0, 994], [-1, 2, 3, 3, 1, 1, 994]),
    // A home win is 1:0 to 3:0 or 3:2; a draw is 0:0 to 3:3.
    (
        &[(HOME, true)],
        1,
        [3, 0, 1, 0, 1, 0, 995],
        [3, 2, 3, 0, 1, 0, 995],
    ),
    (
        &[(HOME, true)],
        2,
        [-4, -4, 0, 0, 0, 0, 994],
        [-4, -2, 2, 2, 0, 0, 994],
    ),
    (
        &[(DRAW, true)],
        2,
        [-3, -1, 0, 0, 0, 0, 994],
        [-3, -1, 3, 3, 0, 0, 994],
    ),
    // With at most one goal at home and at least two away F wins by one to three goals.
    (
        &[(ONE_AT_HOME, true), (ONE_AWAY, false)],
        2,
        [-1, 0, 2, 2, 1, 1, 994],
        [-1, 2, 3, 3, 1, 1, 994],
    ),
    // One score is left: 1:0, and no score at all.
    (
        &[(ONE_AT_HOME, true), (HOME, true)],
        1,
        [3, 0, 1, 0, 1, 0, 995],
        [3, 0, 1, 0, 1, 0, 995],
    ),
    (
        &[(DRAW, true), (HOME, true)],
        1,
        [0, -1, 0, 0, 0, 0, 995],
        [0, -1, 0, 0, 0, 0, 995],
    ),
];

fn key(parts: [i32; 7]) -> ClubKey {
    ClubKey {
        points: parts[0],
        difference: parts[1],
        goals: parts[2],
        away_goals: parts[3],
        wins: parts[4],
        away_wins: parts[5],
        by_rank: parts[6],
    }
}

fn zone_of(alloc: Global, tests: &[(Test, bool)]) -> Result<Vec<Literal>, Fail> {
    let mut zone = Vec::new(alloc);
    for (test, yes) in tests {
        zone.push(Literal {
            test: *test,
            yes: *yes,
        })?;
    }
    Ok(zone)
}

// Both ends by a box of the zone.
fn ends_in(
    rt: &impl Abort,
    alloc: Global,
    sample: &Sample,
    zone: &[Literal],
    club: u8,
) -> Result<KeyEnds, Fail>
    requires league { IsLeague sample.now.sheet sample.now.season }
    requires zone { IsTrue (is_zone_of sample.now.sheet zone.now) }
{
    assert!(rt; (club as usize) < sample.sheet.clubs.len());
    let played = Played::of(alloc, &sample.sheet, &sample.season)?;
    let zone_box = ZoneBox::over(alloc, &played, zone)?;
    Ok(key_ends(&zone_box, club))
}

// Both ends by the checker's way to the zone.
fn ends_along(
    rt: &impl Abort,
    alloc: Global,
    sample: &Sample,
    zone: &[Literal],
    club: u8,
) -> Result<KeyEnds, Fail>
    requires league { IsLeague sample.now.sheet sample.now.season }
    requires zone { IsTrue (is_zone_of sample.now.sheet zone.now) }
{
    assert!(rt; (club as usize) < sample.sheet.clubs.len());
    let mut way = Trail::new(alloc, &sample.sheet, &sample.season)?;
    for literal in zone {
        way.go(*literal)?;
    }
    Ok(way.key_ends(club))
}

fn check_zone(
    rt: &impl Abort,
    alloc: Global,
    sample: &Sample,
    zone: &[Literal],
    row: &Row,
) -> Result<(), Fail>
    requires { IsLeague sample.now.sheet sample.now.season }
{
    let (_, club, low, high) = *row;
    let wanted = KeyEnds {
        low: key(low),
        high: key(high),
    };
    assert!(rt; is_of_sheet(&sample.sheet, zone));
    assert!(rt; ends_in(rt, alloc, sample, zone, club)? == wanted);
    assert!(rt; ends_along(rt, alloc, sample, zone, club)? == wanted);
    Ok(())
}

fn check_row(rt: &impl Abort, alloc: Global, sample: &Sample, row: &Row) -> Result<(), Fail>
    requires { IsLeague sample.now.sheet sample.now.season }
{
    let zone = zone_of(alloc, row.0)?;
    check_zone(rt, alloc, sample, zone.as_slice(), row)
}

#[test]
fn both_ends_of_keys(rt: HostRuntime) -> Result<(), Fail> {
    let sample = sample_of(rt.alloc(), LEAGUE).ok_or("league")?;
    for row in &ROWS {
        check_row(&rt, rt.alloc(), &sample, row)?;
    }
    Ok(())
}

// D has won twice; E and F are level in all parts but points and rank.
fn check_keys(rt: &impl Abort, sample: &Sample)
    requires { IsLeague sample.now.sheet sample.now.season }
{
    assert_eq!(rt; sample.sheet.clubs.len(), 3);
    let first = key_of(&sample.sheet, &sample.season, 0);
    let second = key_of(&sample.sheet, &sample.season, 1);
    let third = key_of(&sample.sheet, &sample.season, 2);
    assert_eq!(rt; first, key([6, 2, 2, 0, 2, 0, 996]));
    assert_eq!(rt; second, key([0, -1, 0, 0, 0, 0, 995]));
    assert_eq!(rt; third, key([-4, -1, 0, 0, 0, 0, 994]));
    assert!(rt; first.is_above(&second) && second.is_from(&third));
    assert!(rt; second.is_from(&second) && !second.is_above(&second));
}

#[test]
fn keys_of_a_season(rt: HostRuntime) -> Result<(), Fail> {
    let sample = sample_of(rt.alloc(), LEAGUE).ok_or("league")?;
    check_keys(&rt, &sample);
    Ok(())
}
