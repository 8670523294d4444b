//! Finishes that lots alone decide, or cannot change, worked by hand.

ghost use Rattle.std.specs.Prelude.{◌≡◌, IfOk};
ghost use Rattle.league_core.specs.game.Seasons.{IsLeague};

use crate::help::asked;
use example_finish::try_example;
use final_rank::{best_place, worst_place};
use league_core::{Claim, Finish, Question};
use sample_leagues::{Sample, sample_of};
use std::alloc::Global;
use std::process::Abort;
use std::test::Fail;

/// A and B are level in all that counts, and share a rank.
const SHARED: &[u8] = b"league,Shared,1\nclub,A,1\nclub,B,1\nmatch,A,B\nline,1\nseason
result,1,0,0\n";

/// The same with ranks of their own: A stands before B, whatever the lots.
const RANKED: &[u8] = b"league,Ranked,1\nclub,A,1\nclub,B,2\nmatch,A,B\nline,1\nseason
result,1,0,0\n";

// Both ends of a club's places.
fn check_club(
    rt: &impl Abort,
    alloc: Global,
    sample: &Sample,
    club: u8,
    wanted: (u8, u8),
) -> Result<(), Fail>
    requires { IsLeague sample.now.sheet sample.now.season }
{
    assert!(rt; (club as usize) < sample.sheet.clubs.len());
    let best = best_place(alloc, &sample.sheet, &sample.season, club)?;
    let worst = worst_place(alloc, &sample.sheet, &sample.season, club)?;
    assert!(rt; (best, worst) == wanted);
    Ok(())
}

// The places of a club of the league of a text.
fn check_places(
    rt: &impl Abort,
    alloc: Global,
    text: &[u8],
    club: u8,
    wanted: (u8, u8),
) -> Result<(), Fail> {
    let sample = sample_of(alloc, text).ok_or("no league")?;
    check_club(rt, alloc, &sample, club, wanted)
}

#[test]
fn lots_move_clubs_that_are_level_alone(rt: HostRuntime) -> Result<(), Fail> {
    check_places(&rt, rt.alloc(), SHARED, 0, (1, 2))?;
    check_places(&rt, rt.alloc(), SHARED, 1, (1, 2))?;
    check_places(&rt, rt.alloc(), RANKED, 0, (1, 1))?;
    check_places(&rt, rt.alloc(), RANKED, 1, (2, 2))
}

fn finish_of(alloc: Global, sample: &Sample) -> Result<Finish, Fail>
    ensures { IfOk result (λ finish. finish ≡ sample.now.season) }
{
    let season = sample.season.copy(alloc)?;
    Ok(Finish::of_season(season).ok().ok_or("a match is open")?)
}

// Asserts with which lots the question holds at this finish; none if it does with none.
fn check_finish(
    rt: &impl Abort,
    alloc: Global,
    sample: &Sample,
    finish: &Finish,
    question: &Question,
    wanted: Option<&[u8]>,
) -> Result<(), Fail>
    requires { IsLeague sample.now.sheet finish.now }
{
    assert!(rt; (question.club as usize) < sample.sheet.clubs.len());
    let found = try_example(alloc, &sample.sheet, question, finish)?;
    assert!(rt; found.as_ref().map(|lots| lots.order()) == wanted);
    Ok(())
}

fn check_league(
    rt: &impl Abort,
    alloc: Global,
    sample: &Sample,
    question: &Question,
    wanted: Option<&[u8]>,
) -> Result<(), Fail>
    requires { IsLeague sample.now.sheet sample.now.season }
{
    let finish = finish_of(alloc, sample)?;
    check_finish(rt, alloc, sample, &finish, question, wanted)
}

// The same, if A is asked about the first place of the league of a text.
fn check_lots(
    rt: &impl Abort,
    alloc: Global,
    text: &[u8],
    claim: Claim,
    wanted: Option<&[u8]>,
) -> Result<(), Fail> {
    let sample = sample_of(alloc, text).ok_or("no league")?;
    check_league(rt, alloc, &sample, &asked(claim, -99, 1800), wanted)
}

#[test]
fn lots_show_where_they_decide(rt: HostRuntime) -> Result<(), Fail> {
    check_lots(&rt, rt.alloc(), SHARED, Claim::Inside, Some(&[0, 1]))?;
    check_lots(&rt, rt.alloc(), SHARED, Claim::Outside, Some(&[1, 0]))?;
    check_lots(&rt, rt.alloc(), RANKED, Claim::Inside, Some(&[0, 1]))?;
    check_lots(&rt, rt.alloc(), RANKED, Claim::Outside, None)
}
