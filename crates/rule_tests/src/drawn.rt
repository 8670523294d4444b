//! Drawn ways through the trees of drawn leagues: both halves of each split have a finish.

ghost use Rattle.std.specs.Prelude.{◌≡◌, ◌<◌, IfOk, IsTrue};
ghost use Rattle.league_core.specs.game.Seasons.{IsLeague};

use crate::help::{go_on, is_of_sheet, worked};
use league_core::{Claim, Listing, Literal, Question, Test, Zone};
use reason_core::Done;
use sample_leagues::{Draws, Sample, drawn_league, sample_of};
use score_box::ZoneBox;
use std::alloc::Global;
use std::process::Abort;
use std::test::Fail;

const CLUBS: u8 = 4;

fn drawn_sample(alloc: Global, draws: &mut Draws) -> Result<Sample, Fail>
    ensures { IfOk result (λ sample. IsLeague sample.sheet sample.season) }
{
    let text = drawn_league(alloc, draws, CLUBS, 8, 4)?;
    Ok(sample_of(alloc, &text).ok_or("no league")?)
}

// A question with the full window, or with one of few points.
fn drawn_question(draws: &mut Draws) -> Question {
    let claim = if draws.flip() {
        Claim::Inside
    } else {
        Claim::Outside
    };
    let (low, high) = if draws.flip() {
        (-99, 1800)
    } else {
        let low = i32::from(draws.below(9));
        (low, low + 2)
    };
    Question {
        club: draws.below(CLUBS),
        line: draws.below(CLUBS - 1) + 1,
        claim,
        low,
        high,
    }
}

fn split_in(done: &Done) -> Option<Literal> {
    match done {
        Done::Split(_, literal) => Some(*literal),
        Done::Refuted(..) | Done::Won(..) | Done::Undone => None,
    }
}

// The split that is proposed for a zone; none if it is refuted or has an example.
fn split_of(
    rt: &impl Abort,
    alloc: Global,
    sample: &Sample,
    question: &Question,
    literals: &[Literal],
) -> Result<Option<Literal>, Fail>
    requires { IsLeague sample.now.sheet sample.now.season }
{
    let done = worked(rt, alloc, sample, question, literals)?;
    Ok(split_in(&done))
}

fn has_finish_after(
    rt: &impl Abort,
    zone_box: &mut ZoneBox,
    literal: Literal,
) -> Result<bool, Fail> {
    go_on(rt, zone_box, literal)?;
    Ok(zone_box.has_finish())
}

fn has_finish_behind(
    rt: &impl Abort,
    alloc: Global,
    sample: &Sample,
    zone: &Zone,
    literal: Literal,
) -> Result<bool, Fail>
    requires { IsLeague sample.now.sheet sample.now.season }
{
    assert!(rt; is_of_sheet(&sample.sheet, zone.literals.as_slice()));
    let mut zone_box = ZoneBox::of(alloc, &sample.sheet, &sample.season, zone)?;
    has_finish_after(rt, &mut zone_box, literal)
}

// Whether the zone has a finish if the literal is put at its end.
fn has_finish_with(
    rt: &impl Abort,
    alloc: Global,
    sample: &Sample,
    literals: &[Literal],
    literal: Literal,
) -> Result<bool, Fail>
    requires { IsLeague sample.now.sheet sample.now.season }
{
    let zone = Zone {
        literals: Listing::from_vec(literals.to_vec(alloc)?),
    };
    has_finish_behind(rt, alloc, sample, &zone, literal)
}

fn check_halves(
    rt: &impl Abort,
    alloc: Global,
    sample: &Sample,
    literals: &[Literal],
    test: Test,
) -> Result<(), Fail>
    requires { IsLeague sample.now.sheet sample.now.season }
{
    let yes = Literal { test, yes: true };
    let no = Literal { test, yes: false };
    assert!(rt; has_finish_with(rt, alloc, sample, literals, yes)?);
    assert!(rt; has_finish_with(rt, alloc, sample, literals, no)?);
    Ok(())
}

fn go_down(
    rt: &impl Abort,
    alloc: Global,
    draws: &mut Draws,
    sample: &Sample,
    zone: &mut Listing<Literal>,
) -> Result<u32, Fail>
    requires { IsLeague sample.now.sheet sample.now.season }
{
    let question = drawn_question(draws);
    for depth in 0..60u32 {
        match split_of(rt, alloc, sample, &question, zone.as_slice())? {
            None => return Ok(depth),
            Some(literal) => {
                let test = literal.test;
                check_halves(rt, alloc, sample, zone.as_slice(), test)?;
                let yes = draws.flip();
                zone.push(Literal { test, yes })?;
            }
        }
    }
    Err("no leaf".into())
}

fn go_down_in(
    rt: &impl Abort,
    alloc: Global,
    draws: &mut Draws,
    sample: &Sample,
) -> Result<u32, Fail>
    requires { IsLeague sample.now.sheet sample.now.season }
{
    let mut zone = Listing::new(alloc);
    go_down(rt, alloc, draws, sample, &mut zone)
}

// Goes down to a leaf, to either half as drawn, and says how many splits it met.
fn splits_met(rt: &impl Abort, alloc: Global, draws: &mut Draws) -> Result<u32, Fail> {
    let sample = drawn_sample(alloc, draws)?;
    go_down_in(rt, alloc, draws, &sample)
}

#[test]
fn both_halves_of_each_split_have_a_finish(rt: HostRuntime) -> Result<(), Fail> {
    let mut draws = Draws::new(31);
    let mut splits = 0u32;
    for _ in 0..300 {
        splits = splits.saturating_add(splits_met(&rt, rt.alloc(), &mut draws)?);
    }
    assert!(rt; 200 < splits, "{splits}");
    Ok(())
}
