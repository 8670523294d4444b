//! Pieces of three leagues that are worked on paper: C, the first club, is asked about the first
//! place.

ghost use Rattle.league_core.specs.game.Seasons.{IsLeague};

use crate::help::{ahead, asked, behind, worked_with};
use flow_bound::FlowKeep;
use league_core::{Claim, ClubSet, Finish, Literal, Question, Reason, Score, Test};
use reason_core::Done;
use sample_leagues::{Sample, sample_of};
use std::alloc::Global;
use std::process::Abort;
use std::test::Fail;

/// X and Y have 3 points each and still play each other, C can have 3.
const LEVEL: &[u8] = b"league,Level,2\nclub,C,1\nclub,X,2\nclub,Y,3\nclub,Z,4\nmatch,X,Z
match,Y,Z\nmatch,C,Z\nmatch,X,Y\nline,1\nseason\nresult,1,1,0\nresult,2,1,0\n";

/// C has 2 points, X and Y have 4; C-Z and X-Y are open, at most one goal a side.
const DRAWN: &[u8] = b"league,Drawn,1\nclub,C,1\nclub,X,2\nclub,Y,3\nclub,Z,4\nmatch,C,X
match,C,Y\nmatch,X,Z\nmatch,Y,Z\nmatch,C,Z\nmatch,X,Y\nline,1\nseason\nresult,1,0,0
result,2,0,0\nresult,3,3,0\nresult,4,3,0\n";

/// C has beaten X twice, and a round is open.
const TWICE: &[u8] = b"league,Twice,20\nclub,C,1\nclub,X,2\nclub,Y,3\nclub,Z,4\nmatch,C,X
match,C,X\nmatch,C,X\nmatch,Y,Z\nline,1\nseason\nresult,1,1,0\nresult,2,1,0\n";

/// What is found in a piece, without the piece; of an example the score of the last match.
#[derive(Clone, Copy, PartialEq, Eq)]
enum Found {
    Won(Option<Score>),
    Refuted(Reason),
    Split(Test),
    Undone,
}

fn found_in(done: &Done) -> Found {
    match done {
        Done::Won(_, finish, _) => Found::Won(last_score(finish)),
        Done::Refuted(_, reason) => Found::Refuted(*reason),
        Done::Split(_, literal) => Found::Split(literal.test),
        Done::Undone => Found::Undone,
    }
}

fn found_with(
    rt: &impl Abort,
    alloc: Global,
    sample: &Sample,
    question: &Question,
    literals: &[Literal],
    keep: &mut FlowKeep,
) -> Result<Found, Fail>
    requires { IsLeague sample.now.sheet sample.now.season }
{
    let done = worked_with(rt, alloc, sample, question, literals, keep)?;
    Ok(found_in(&done))
}

fn work_in(
    rt: &impl Abort,
    alloc: Global,
    text: &[u8],
    question: &Question,
    literals: &[Literal],
    keep: &mut FlowKeep,
) -> Result<Found, Fail> {
    let sample = sample_of(alloc, text).ok_or("no league")?;
    found_with(rt, alloc, &sample, question, literals, keep)
}

fn last_score(finish: &Finish) -> Option<Score> {
    match finish.as_season().scores() {
        [.., score] => *score,
        [] => None,
    }
}

// Whether this is found if C is to be inside or outside, with any points.
fn finds(
    rt: &impl Abort,
    alloc: Global,
    text: &[u8],
    claim: Claim,
    zone: &[Literal],
    wanted: Found,
) -> Result<(), Fail> {
    let mut keep = FlowKeep::new();
    let found = work_in(rt, alloc, text, &asked(claim, -99, 1800), zone, &mut keep)?;
    assert!(rt; found == wanted, "{text:?}");
    Ok(())
}

// Asserts what is found if C is to be inside, from what the pieces before left.
fn inside_from(
    rt: &impl Abort,
    alloc: Global,
    text: &[u8],
    zone: &[Literal],
    keep: &mut FlowKeep,
    wanted: Found,
) -> Result<(), Fail> {
    let found = work_in(
        rt,
        alloc,
        text,
        &asked(Claim::Inside, -99, 1800),
        zone,
        keep,
    )?;
    assert!(rt; found == wanted, "{text:?}");
    Ok(())
}

// Asserts what is found in the first league if C is to be inside.
fn inside(rt: &impl Abort, alloc: Global, zone: &[Literal], wanted: Found) -> Result<(), Fail> {
    finds(rt, alloc, LEVEL, Claim::Inside, zone, wanted)
}

// The same in the third if it is to be outside.
fn outside(rt: &impl Abort, alloc: Global, zone: &[Literal], wanted: Found) -> Result<(), Fail> {
    finds(rt, alloc, TWICE, Claim::Outside, zone, wanted)
}

fn rival(club: u8) -> Found {
    Found::Split(Test::Rival { club })
}

fn low(bits: u32) -> Found {
    Found::Refuted(Reason::Low(ClubSet { bits }))
}

fn high(bits: u32) -> Found {
    Found::Refuted(Reason::High(ClubSet { bits }))
}

const COUNT: Found = Found::Refuted(Reason::Count);

// A rival before C leaves it no place; X and Y behind it have 8 points together, more than twice
// the 3 that C can have. To be outside C loses, and X and Y, which are both wished points, part
// with a narrow home win.
#[test]
fn two_level_rivals_refute_a_piece_together(rt: HostRuntime) -> Result<(), Fail> {
    let alloc = rt.alloc();
    inside(&rt, alloc, &[], rival(1))?;
    inside(&rt, alloc, &[ahead(1)], COUNT)?;
    inside(&rt, alloc, &[behind(1)], rival(2))?;
    inside(&rt, alloc, &[behind(1), ahead(2)], COUNT)?;
    inside(&rt, alloc, &[behind(1), behind(2)], low(6))?;
    let score = Score { home: 1, away: 0 };
    let won = Found::Won(Some(score));
    finds(&rt, alloc, LEVEL, Claim::Outside, &[], won)
}

// Each rival can have 3 points, fewer than the 6 that C has for certain.
#[test]
fn rivals_that_cannot_come_up_refute_pieces_alone(rt: HostRuntime) -> Result<(), Fail> {
    let alloc = rt.alloc();
    outside(&rt, alloc, &[], rival(1))?;
    outside(&rt, alloc, &[ahead(1)], high(2))?;
    outside(&rt, alloc, &[behind(1), ahead(2)], high(4))?;
    outside(&rt, alloc, &[behind(1), behind(2)], rival(3))?;
    outside(&rt, alloc, &[behind(1), behind(2), behind(3)], COUNT)
}

// A cut of X and Y is found, then another league if they make none, then the cut once more.
#[test]
fn pieces_are_worked_on_with_one_keep(rt: HostRuntime) -> Result<(), Fail> {
    let alloc = rt.alloc();
    let mut keep = FlowKeep::new();
    let both = [behind(1), behind(2)];
    inside_from(&rt, alloc, LEVEL, &[behind(1)], &mut keep, rival(2))?;
    inside_from(&rt, alloc, LEVEL, &both, &mut keep, low(6))?;
    inside_from(&rt, alloc, DRAWN, &both, &mut keep, rival(3))?;
    inside_from(&rt, alloc, LEVEL, &both, &mut keep, low(6))
}

fn all_after_and(tests: &[Literal], alloc: Global) -> Result<Vec<Literal>, Fail> {
    let mut zone = vec![in alloc; behind(1), behind(2), behind(3)]?;
    zone.extend_from_slice(tests)?;
    Ok(zone)
}

// Asserts what is found in the second league, with all rivals behind C and these literals.
fn level_after_draws(
    rt: &impl Abort,
    alloc: Global,
    tests: &[Literal],
    wanted: Found,
) -> Result<(), Fail> {
    let zone = all_after_and(tests, alloc)?;
    finds(rt, alloc, DRAWN, Claim::Inside, &zone, wanted)
}

const C_BEATS_Z: Test = Test::Home { fixture: 4 };

const X_BEATS_Y: Test = Test::Home { fixture: 5 };

const X_DRAWS_Y: Test = Test::Draw { fixture: 5 };

const NO_GOAL_OF_X: Test = Test::HomeMost {
    fixture: 5,
    most: 0,
};

fn of(test: Test, yes: bool) -> Literal {
    Literal { test, yes }
}

// If C does not win, X has too many points alone; if X or Y wins, the winner. Else X and Y have 10
// points together, just twice what C has, so no set refutes. After 0:0 C has the worse difference
// over all matches, after 1:1 fewer goals against the two.
#[test]
fn criteria_refute_a_piece_where_points_do_not(rt: HostRuntime) -> Result<(), Fail> {
    let alloc = rt.alloc();
    let won = of(C_BEATS_Z, true);
    level_after_draws(&rt, alloc, &[], Found::Split(C_BEATS_Z))?;
    level_after_draws(&rt, alloc, &[of(C_BEATS_Z, false)], low(2))?;
    level_after_draws(&rt, alloc, &[won], Found::Split(X_BEATS_Y))?;
    level_after_draws(&rt, alloc, &[won, of(X_BEATS_Y, true)], low(2))?;
    let lost = [won, of(X_BEATS_Y, false), of(X_DRAWS_Y, false)];
    level_after_draws(&rt, alloc, &lost, low(4))
}

#[test]
fn criteria_refute_a_piece_where_two_are_level(rt: HostRuntime) -> Result<(), Fail> {
    let alloc = rt.alloc();
    let won = of(C_BEATS_Z, true);
    let level = [won, of(X_BEATS_Y, false), of(X_DRAWS_Y, true)];
    level_after_draws(&rt, alloc, &level, Found::Split(NO_GOAL_OF_X))?;
    for yes in [true, false] {
        let fixed = [level[0], level[1], level[2], of(NO_GOAL_OF_X, yes)];
        level_after_draws(&rt, alloc, &fixed, Found::Refuted(Reason::Tie))?;
    }
    Ok(())
}
