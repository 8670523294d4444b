//! Zones in which the two orders of the criteria differ.

ghost use Rattle.std.specs.Prelude.{◌<◌};
ghost use Rattle.league_core.specs.game.Seasons.{IsLeague};

use super::leagues::{Game, league_of};
use super::zones::zone_of;
use league_core::{Order, Sure, Zone};
use sample_leagues::{Sample, is_of_sheet};
use score_box::ZoneBox;
use std::alloc::Global;
use std::process::Abort;
use std::test::Fail;
use tie_bound::{has_one_outcome, judge};

/// A zone, and what is sure of B against A in it by either order.
struct Row {
    name: &'static str,
    games: &'static [Game],
    head_first: Sure,
    overall_first: Sure,
}

// Worked by hand from the rules. From the second row on A, B and C have six points each; A beat B,
// and among the three B has the greater difference.
const ROWS: [Row; 4] = [
    Row {
        name: "A beat B, whose difference is the greater",
        games: &[(0, 1, 'H', (1, 1), (0, 0)), (1, 3, 'H', (5, 5), (0, 0))],
        head_first: Sure::Below,
        overall_first: Sure::Above,
    },
    Row {
        name: "A and B share difference and goals: their own match decides",
        games: &[
            (0, 1, 'H', (1, 1), (0, 0)),
            (1, 2, 'H', (3, 3), (0, 0)),
            (2, 0, 'H', (1, 1), (0, 0)),
            (0, 3, 'H', (3, 3), (0, 0)),
            (1, 3, 'H', (1, 1), (0, 0)),
            (2, 3, 'H', (1, 1), (0, 0)),
        ],
        head_first: Sure::Above,
        overall_first: Sure::Below,
    },
    Row {
        name: "C may share them too",
        games: &[
            (0, 1, 'H', (1, 1), (0, 0)),
            (1, 2, 'H', (3, 3), (0, 0)),
            (2, 0, 'H', (1, 1), (0, 0)),
            (0, 3, 'H', (3, 3), (0, 0)),
            (1, 3, 'H', (1, 1), (0, 0)),
            (2, 3, 'H', (1, 9), (0, 0)),
        ],
        head_first: Sure::Above,
        overall_first: Sure::Unknown,
    },
    Row {
        name: "the ranges of A's and B's difference meet",
        games: &[
            (0, 1, 'H', (1, 1), (0, 0)),
            (1, 2, 'H', (3, 3), (0, 0)),
            (2, 0, 'H', (1, 1), (0, 0)),
            (0, 3, 'H', (3, 4), (0, 0)),
            (1, 3, 'H', (1, 1), (0, 0)),
            (2, 3, 'H', (1, 1), (0, 0)),
        ],
        head_first: Sure::Above,
        overall_first: Sure::Unknown,
    },
];

fn check_box(rt: &impl Abort, zone_box: &ZoneBox, row: &Row, wanted: Sure) {
    assert!(rt; has_one_outcome(zone_box), "{}", row.name);
    assert!(rt; 1 < zone_box.sheet().clubs.len());
    assert!(rt; judge(zone_box, 0, 1) == wanted, "{}", row.name);
}

fn check_zone(
    rt: &impl Abort,
    alloc: Global,
    sample: &Sample,
    zone: &Zone,
    row: &Row,
    wanted: Sure,
) -> Result<(), Fail>
    requires { IsLeague sample.now.sheet sample.now.season }
{
    assert!(rt; is_of_sheet(&sample.sheet, zone.literals.as_slice()));
    let zone_box = ZoneBox::of(alloc, &sample.sheet, &sample.season, zone)?;
    check_box(rt, &zone_box, row, wanted);
    Ok(())
}

fn check_league(
    rt: &impl Abort,
    alloc: Global,
    sample: &Sample,
    row: &Row,
    wanted: Sure,
) -> Result<(), Fail>
    requires { IsLeague sample.now.sheet sample.now.season }
{
    let zone = zone_of(alloc, row.games, &[])?;
    check_zone(rt, alloc, sample, &zone, row, wanted)
}

fn check(
    rt: &impl Abort,
    alloc: Global,
    row: &Row,
    order: Order,
    wanted: Sure,
) -> Result<(), Fail> {
    let sample = league_of(alloc, order, row.games)?;
    check_league(rt, alloc, &sample, row, wanted)
}

#[test]
fn what_is_sure_follows_the_sheets_order(rt: HostRuntime) -> Result<(), Fail> {
    for row in ROWS.iter() {
        check(&rt, rt.alloc(), row, Order::HeadFirst, row.head_first)?;
        check(&rt, rt.alloc(), row, Order::OverallFirst, row.overall_first)?;
    }
    Ok(())
}
