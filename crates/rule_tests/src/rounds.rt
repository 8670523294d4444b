//! Drawn leagues, each looked at beside the plain program.

ghost use Rattle.std.specs.Prelude.{IfOk};
ghost use Rattle.league_core.specs.game.Seasons.{IsLeague};

use crate::finishes::check_drawn_reaches;
use crate::groups::check_drawn_group;
use crate::ranking::{check_drawn_lots, check_drawn_spans};
use sample_leagues::{Draws, Sample, drawn_league, sample_of};
use std::alloc::Global;
use std::process::Abort;
use std::test::Fail;

/// What is looked at in a league.
#[derive(Clone, Copy)]
enum Look {
    Spans,
    Lots,
    Reaches,
    Group,
}

fn league_in(alloc: Global, text: &[u8]) -> Result<Sample, Fail>
    ensures { IfOk result (λ sample. IsLeague sample.sheet sample.season) }
{
    Ok(sample_of(alloc, text).ok_or("no league")?)
}

// A drawn league with at most three matches open.
fn drawn_sample(alloc: Global, draws: &mut Draws) -> Result<Sample, Fail>
    ensures { IfOk result (λ sample. IsLeague sample.sheet sample.season) }
{
    let clubs = draws.below(7) + 2;
    let matches = draws.below(14);
    let text = drawn_league(alloc, draws, clubs, matches, 3)?;
    league_in(alloc, &text)
}

fn look_at(
    rt: &impl Abort,
    alloc: Global,
    draws: &mut Draws,
    sample: &Sample,
    look: Look,
    round: u32,
) -> Result<(), Fail>
    requires { IsLeague sample.now.sheet sample.now.season }
{
    match look {
        Look::Spans => check_drawn_spans(rt, alloc, sample, round),
        Look::Lots => check_drawn_lots(rt, alloc, draws, sample, round),
        Look::Reaches => check_drawn_reaches(rt, alloc, sample, round),
        Look::Group => check_drawn_group(rt, alloc, draws, sample),
    }
}

fn look_once(
    rt: &impl Abort,
    alloc: Global,
    draws: &mut Draws,
    look: Look,
    round: u32,
) -> Result<(), Fail> {
    let sample = drawn_sample(alloc, draws)?;
    look_at(rt, alloc, draws, &sample, look, round)
}

fn look_often(
    rt: &impl Abort,
    alloc: Global,
    seed: u32,
    rounds: u32,
    look: Look,
) -> Result<(), Fail> {
    let mut draws = Draws::new(seed);
    for round in 0..rounds {
        look_once(rt, alloc, &mut draws, look, round)?;
    }
    Ok(())
}

#[test]
fn spans_are_those_of_the_rules(rt: HostRuntime) -> Result<(), Fail> {
    look_often(&rt, rt.alloc(), 1, 200, Look::Spans)
}

#[test]
fn places_and_tables_are_those_of_the_rules(rt: HostRuntime) -> Result<(), Fail> {
    look_often(&rt, rt.alloc(), 2, 100, Look::Lots)
}

#[test]
fn reaches_are_those_of_the_rules(rt: HostRuntime) -> Result<(), Fail> {
    look_often(&rt, rt.alloc(), 3, 40, Look::Reaches)
}

// Of 120 groups each second has two blocks or more, and some have a block of several clubs.
#[test]
fn blocks_and_records_are_those_of_the_rules(rt: HostRuntime) -> Result<(), Fail> {
    look_often(&rt, rt.alloc(), 4, 120, Look::Group)
}
