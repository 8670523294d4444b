//! Boxes along drawn paths of literals: what they leave beside the plain program, beside boxes made
//! anew, and beside the cuts.

ghost use Rattle.std.specs.Prelude.{◌<◌, length};
ghost use Rattle.league_core.specs.game.Seasons.{IsLeague};

use crate::cuts::league::{cuts_from, cuts_over};
use crate::drawn_boxes::{CLUBS, MATCHES, drawn_literal, drawn_sample};
use crate::plain_boxes::{is_option, sums_of};
use flow_bound::FlowKeep;
use league_core::{
    Claim, ClubSet, Listing, Literal, OutOfMemory, Question, Reason, Score, Sheet, Zone,
};
use sample_leagues::{Draws, Sample, is_below, is_of_sheet};
use score_box::{Played, ZoneBox};
use std::alloc::Global;
use std::process::Abort;
use std::test::Fail;
use tie_bound::{holds, tie_reason};

fn go_on(rt: &impl Abort, zone_box: &mut ZoneBox, literal: Literal) -> Result<(), OutOfMemory> {
    let fixtures = zone_box.sheet().fixtures.len();
    let clubs = zone_box.sheet().clubs.len();
    assert!(rt; is_below(&literal.test, fixtures, clubs));
    zone_box.cut(literal)
}

fn go_back(rt: &impl Abort, zone_box: &mut ZoneBox) -> Literal {
    assert!(rt; !zone_box.zone().is_empty());
    zone_box.uncut()
}

fn check_cells(rt: &impl Abort, zone_box: &ZoneBox, zone: &[Literal]) {
    let fixtures = zone_box.season().scores().len();
    for number in 0..fixtures {
        let number = u16::try_from(number).unwrap_or(0);
        assert!(rt; (number as usize) < zone_box.season().scores().len());
        let played = zone_box.season().score(number);
        let cell = zone_box.cell(number);
        for home in 0..5 {
            for away in 0..5 {
                let score = Score { home, away };
                let wanted = is_option(zone_box.sheet(), played, zone, number, score);
                assert_eq!(rt; cell.allows(&score), wanted, "{number}: {home}:{away}");
            }
        }
    }
}

fn check_sums(rt: &impl Abort, zone_box: &ZoneBox, zone: &[Literal], set: ClubSet) {
    let wanted = sums_of(zone_box.sheet(), zone_box.season(), zone, set);
    assert!(rt; zone_box.has_finish() == wanted.has_finish);
    assert!(rt; zone_box.open_outcomes() == wanted.open_outcomes);
    if zone_box.has_finish() {
        let points = (zone_box.low_points(set), zone_box.high_points(set));
        assert!(rt; points == (wanted.least, wanted.most));
    }
}

fn check_clubs(rt: &impl Abort, zone_box: &ZoneBox, zone: &[Literal]) {
    for club in 0..CLUBS {
        let set = ClubSet { bits: 1 << club };
        check_sums(rt, zone_box, zone, set);
        assert!(rt; (club as usize) < zone_box.sheet().clubs.len());
        if zone_box.has_finish() {
            assert_eq!(rt; zone_box.low(club), zone_box.low_points(set));
            assert_eq!(rt; zone_box.high(club), zone_box.high_points(set));
        }
    }
}

// Whether a floor cut, and whether a ceiling cut holds for some set of clubs.
fn some_cuts(fresh: &ZoneBox, question: &Question) -> (bool, bool)
    requires { question.now.club < length fresh.now.sheet.clubs }
{
    let mut low = false;
    let mut high = false;
    for bits in 0..64 {
        let set = ClubSet { bits };
        low = low || holds(fresh, question, &Reason::Low(set));
        high = high || holds(fresh, question, &Reason::High(set));
    }
    (low, high)
}

// A cut is found exactly when a set makes one, and over both boxes it is the same, also from what
// the other cut left.
fn check_cuts(
    rt: &impl Abort,
    alloc: Global,
    kept: &ZoneBox,
    fresh: &ZoneBox,
    question: &Question,
) -> Result<(), Fail> {
    assert!(rt; (question.club as usize) < kept.sheet().clubs.len());
    assert!(rt; (question.club as usize) < fresh.sheet().clubs.len());
    let (low, high) = cuts_over(alloc, kept, question)?.ok_or("no finish")?;
    assert!(rt; (low.is_some(), high.is_some()) == some_cuts(fresh, question));
    let mut keep = FlowKeep::new();
    assert!(rt; cuts_from(alloc, fresh, question, &mut keep)? == Some((low, high)));
    assert!(rt; cuts_from(alloc, kept, question, &mut keep)? == Some((low, high)));
    Ok(())
}

// The reasons that are given hold alike over both boxes.
fn check_reasons(rt: &impl Abort, kept: &ZoneBox, fresh: &ZoneBox, question: &Question) {
    assert!(rt; (question.club as usize) < kept.sheet().clubs.len() && kept.has_finish());
    assert!(rt; (question.club as usize) < fresh.sheet().clubs.len() && fresh.has_finish());
    assert_eq!(rt; tie_reason(kept, question), tie_reason(fresh, question));
    for reason in [Reason::Count, Reason::Window, Reason::Tie].iter() {
        assert!(rt; holds(kept, question, reason) == holds(fresh, question, reason));
    }
}

fn drawn_question(draws: &mut Draws) -> Question {
    let claim = if draws.flip() {
        Claim::Inside
    } else {
        Claim::Outside
    };
    Question {
        club: draws.below(CLUBS),
        line: draws.below(CLUBS - 1) + 1,
        claim,
        low: i32::from(draws.below(8)) - 3,
        high: i32::from(draws.below(8)) + 2,
    }
}

fn check_plain(rt: &impl Abort, kept: &ZoneBox, bits: u32) {
    let path = kept.zone();
    check_cells(rt, kept, path);
    check_clubs(rt, kept, path);
    check_sums(rt, kept, path, ClubSet { bits });
}

fn check_fresh(
    rt: &impl Abort,
    alloc: Global,
    kept: &ZoneBox,
    fresh: &ZoneBox,
    draws: &mut Draws,
) -> Result<(), Fail> {
    assert!(rt; kept.before() == fresh.before() && kept.after() == fresh.after());
    assert!(rt; kept.is_single() == fresh.is_single());
    if kept.has_finish() {
        let question = drawn_question(draws);
        check_cuts(rt, alloc, kept, fresh, &question)?;
        check_reasons(rt, kept, fresh, &question);
    }
    Ok(())
}

fn check_anew(
    rt: &impl Abort,
    alloc: Global,
    sample: &Sample,
    zone: &Zone,
    kept: &ZoneBox,
    draws: &mut Draws,
) -> Result<(), Fail>
    requires { IsLeague sample.now.sheet sample.now.season }
{
    assert!(rt; is_of_sheet(&sample.sheet, zone.literals.as_slice()));
    let fresh = ZoneBox::of(alloc, &sample.sheet, &sample.season, zone)?;
    check_fresh(rt, alloc, kept, &fresh, draws)
}

fn check(
    rt: &impl Abort,
    alloc: Global,
    sample: &Sample,
    kept: &ZoneBox,
    draws: &mut Draws,
) -> Result<(), Fail>
    requires { IsLeague sample.now.sheet sample.now.season }
{
    check_plain(rt, kept, u32::from(draws.below(64)));
    let zone = Zone {
        literals: Listing::from_vec(kept.zone().to_vec(alloc)?),
    };
    check_anew(rt, alloc, sample, &zone, kept, draws)
}

// Goes back by one literal, so many times in eight, or else on, beside the path as a list.
fn step(
    rt: &impl Abort,
    draws: &mut Draws,
    kept: &mut ZoneBox,
    path: &mut Vec<Literal>,
    back: u8,
) -> Result<(), Fail> {
    if draws.below(8) < back && !path.is_empty() {
        assert!(rt; Some(go_back(rt, kept)) == path.pop());
        return Ok(());
    }
    let literal = drawn_literal(draws, kept);
    go_on(rt, kept, literal)?;
    Ok(path.push(literal)?)
}

// There and back at first, then down, but up if no finish is left.
fn times_back(turn: u16, has_finish: bool) -> u8 {
    if !has_finish {
        6
    } else if turn < 60 {
        4
    } else {
        1
    }
}

fn turn(
    rt: &impl Abort,
    alloc: Global,
    draws: &mut Draws,
    sample: &Sample,
    kept: &mut ZoneBox,
    path: &mut Vec<Literal>,
    turn: u16,
) -> Result<(), Fail>
    requires { IsLeague sample.now.sheet sample.now.season }
{
    let back = times_back(turn, kept.has_finish());
    step(rt, draws, kept, path, back)?;
    if turn < 60 || turn % 10 == 0 {
        check(rt, alloc, sample, kept, draws)?;
    }
    Ok(())
}

fn go(
    rt: &impl Abort,
    alloc: Global,
    draws: &mut Draws,
    sample: &Sample,
    kept: &mut ZoneBox,
    turns: u16,
) -> Result<(), Fail>
    requires { IsLeague sample.now.sheet sample.now.season }
{
    let mut path = Vec::new(alloc);
    for number in 0..turns {
        turn(rt, alloc, draws, sample, kept, &mut path, number)?;
    }
    assert!(rt; turns < 260 || kept.zone().len() >= 100);
    Ok(())
}

fn go_from(
    rt: &impl Abort,
    alloc: Global,
    draws: &mut Draws,
    sample: &Sample,
    played: &Played,
    turns: u16,
) -> Result<(), Fail>
    requires { IsLeague sample.now.sheet sample.now.season }
{
    let mut kept = ZoneBox::over(alloc, played, &[])?;
    go(rt, alloc, draws, sample, &mut kept, turns)
}

fn check_sample(
    rt: &impl Abort,
    alloc: Global,
    draws: &mut Draws,
    sample: &Sample,
    turns: u16,
) -> Result<(), Fail>
    requires { IsLeague sample.now.sheet sample.now.season }
{
    let played = Played::of(alloc, &sample.sheet, &sample.season)?;
    go_from(rt, alloc, draws, sample, &played, turns)
}

fn check_league(rt: &impl Abort, alloc: Global, draws: &mut Draws, turns: u16) -> Result<(), Fail> {
    let sample = drawn_sample(alloc, draws, CLUBS, MATCHES, 9, b'3')?;
    check_sample(rt, alloc, draws, &sample, turns)
}

#[test]
fn a_path_of_literals_leaves_what_the_plain_program_leaves(rt: HostRuntime) -> Result<(), Fail> {
    let mut draws = Draws::new(18);
    for _ in 0..4 {
        check_league(&rt, rt.alloc(), &mut draws, 60)?;
    }
    for _ in 0..2 {
        check_league(&rt, rt.alloc(), &mut draws, 260)?;
    }
    Ok(())
}
