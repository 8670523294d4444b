//! Drawn zones in which each match has one outcome: what is sure, and whether the criteria refute a
//! question, beside the plain program.

ghost use Rattle.league_core.specs.game.Seasons.{IsLeague};

use super::plain::Left;
use crate::drawn_boxes::drawn_sample;
use league_core::{Claim, Listing, Literal, OutOfMemory, Question, Season, Sure, Test, Zone};
use sample_leagues::{Draws, Sample, is_of_sheet};
use score_box::ZoneBox;
use std::alloc::Global;
use std::process::Abort;
use std::test::Fail;
use tie_bound::{has_one_outcome, judge, tie_reason};

const CLUBS: u8 = 5;

// For each open match an outcome, or seldom none, and sometimes the most goals of a side; and if
// some rivals stand.
fn drawn_zone(alloc: Global, draws: &mut Draws, season: &Season) -> Result<Zone, OutOfMemory> {
    let mut literals = Listing::new(alloc);
    add_drawn(&mut literals, draws, season)?;
    Ok(Zone { literals })
}

fn add_drawn(
    literals: &mut Listing<Literal>,
    draws: &mut Draws,
    season: &Season,
) -> Result<(), OutOfMemory> {
    let mut fixture = 0u16;
    for score in season.scores() {
        if score.is_none() {
            add_outcome(literals, draws, fixture)?;
        }
        fixture = fixture.wrapping_add(1);
    }
    add_rivals(literals, draws)
}

fn add_outcome(
    literals: &mut Listing<Literal>,
    draws: &mut Draws,
    fixture: u16,
) -> Result<(), OutOfMemory> {
    for literal in drawn_outcome(draws, fixture).iter() {
        literals.push(*literal)?;
    }
    Ok(())
}

fn add_rivals(literals: &mut Listing<Literal>, draws: &mut Draws) -> Result<(), OutOfMemory> {
    for club in 0..CLUBS {
        let yes = draws.flip();
        if draws.below(4) == 0 {
            literals.push(Literal {
                test: Test::Rival { club },
                yes,
            })?;
        }
    }
    Ok(())
}

fn drawn_outcome(draws: &mut Draws, fixture: u16) -> [Literal; 3] {
    let most = draws.below(3) + 1;
    let goals = if draws.flip() {
        Test::HomeMost { fixture, most }
    } else {
        Test::AwayMost { fixture, most }
    };
    let is_draw = draws.below(3) == 0;
    [
        Literal {
            test: Test::Draw { fixture },
            yes: is_draw,
        },
        Literal {
            test: Test::Home { fixture },
            yes: !is_draw && draws.flip(),
        },
        Literal {
            test: goals,
            yes: most > 2 || draws.below(4) != 0,
        },
    ]
}

fn check_sure(rt: &impl Abort, zone_box: &ZoneBox, left: &Left, told: &mut [u32; 4]) {
    assert!(rt; has_one_outcome(zone_box) && zone_box.sheet().clubs.len() == CLUBS as usize);
    for club in 0..CLUBS {
        for rival in 0..CLUBS {
            let found = judge(zone_box, club, rival);
            assert!(rt; found == left.sure(rival, club), "{club} {rival}");
            let kind = found as usize;
            told[kind] = told[kind].wrapping_add(1);
        }
    }
}

fn drawn_question(draws: &mut Draws) -> Question {
    let claim = if draws.flip() {
        Claim::Inside
    } else {
        Claim::Outside
    };
    Question {
        club: draws.below(CLUBS),
        line: draws.below(CLUBS - 1) + 1,
        claim,
        low: -99,
        high: 1800,
    }
}

// How many questions the criteria refute, of eight.
fn check_reasons(rt: &impl Abort, zone_box: &ZoneBox, left: &Left, draws: &mut Draws) -> u32 {
    let mut refuted = 0u32;
    for _ in 0..8 {
        let question = drawn_question(draws);
        assert!(rt; zone_box.has_finish());
        let found = tie_reason(zone_box, &question);
        assert!(rt; found == left.is_refuted(&question, zone_box.zone()));
        refuted = refuted.wrapping_add(u32::from(found));
    }
    refuted
}

/// How often each answer came, in how many zones, and how many questions were refuted.
#[derive(Clone, Copy)]
struct Told {
    answers: [u32; 4],
    zones: u32,
    refuted: u32,
}

fn check_left(
    rt: &impl Abort,
    zone_box: &ZoneBox,
    left: &Left,
    draws: &mut Draws,
    told: &mut Told,
) {
    assert_eq!(rt; zone_box.has_finish(), left.has_finish());
    if left.has_finish() {
        check_sure(rt, zone_box, left, &mut told.answers);
        let refuted = check_reasons(rt, zone_box, left, draws);
        told.refuted = told.refuted.wrapping_add(refuted);
        told.zones = told.zones.wrapping_add(1);
    }
}

fn check_box(
    rt: &impl Abort,
    alloc: Global,
    zone_box: &ZoneBox,
    draws: &mut Draws,
    told: &mut Told,
) -> Result<(), Fail> {
    let left = Left::of(alloc, zone_box.sheet(), zone_box.season(), zone_box.zone())?;
    check_left(rt, zone_box, &left, draws, told);
    Ok(())
}

fn check_zone(
    rt: &impl Abort,
    alloc: Global,
    sample: &Sample,
    zone: &Zone,
    draws: &mut Draws,
    told: &mut Told,
) -> Result<(), Fail>
    requires { IsLeague sample.now.sheet sample.now.season }
{
    assert!(rt; is_of_sheet(&sample.sheet, zone.literals.as_slice()));
    let zone_box = ZoneBox::of(alloc, &sample.sheet, &sample.season, zone)?;
    check_box(rt, alloc, &zone_box, draws, told)
}

fn check_league(
    rt: &impl Abort,
    alloc: Global,
    sample: &Sample,
    draws: &mut Draws,
    told: &mut Told,
) -> Result<(), Fail>
    requires { IsLeague sample.now.sheet sample.now.season }
{
    let zone = drawn_zone(alloc, draws, &sample.season)?;
    check_zone(rt, alloc, sample, &zone, draws, told)
}

// Two goals a side in place of one, so that sums have ranges when outcomes have one value.
fn check_drawn(
    rt: &impl Abort,
    alloc: Global,
    draws: &mut Draws,
    told: &mut Told,
) -> Result<(), Fail> {
    let sample = drawn_sample(alloc, draws, CLUBS, 8, 6, b'2')?;
    check_league(rt, alloc, &sample, draws, told)
}

// Each answer comes, and of the questions some are refuted and some are not.
#[test]
fn what_is_sure_is_what_the_ranges_of_all_sums_say(rt: HostRuntime) -> Result<(), Fail> {
    let mut draws = Draws::new(355);
    let mut told = Told {
        answers: [0; 4],
        zones: 0,
        refuted: 0,
    };
    for _ in 0..80 {
        check_drawn(&rt, rt.alloc(), &mut draws, &mut told)?;
    }
    let [one, two, three, four] = told.answers;
    let least = one.min(two).min(three).min(four);
    let others = told.zones.wrapping_mul(8).wrapping_sub(told.refuted);
    assert!(rt; least > 9 && told.refuted > 99 && others > 99);
    Ok(())
}
