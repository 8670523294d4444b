//! Walks in a league worked by hand: X, A and B are level, and B-A is open. If A wins it, X is
//! level with B alone, which it has beaten, and is second; if B wins it, X is level with A alone,
//! to which it has lost, and is third; if it is drawn both are before X. The proposed finish has it
//! drawn, and a walk begins with a win of B.

ghost use Rattle.std.specs.Prelude.{IsTrue, []};
ghost use Rattle.league_core.specs.game.Seasons.{IsLeague};
ghost use Rattle.league_core.specs.game.Questions.{IsQuestionOf};
ghost use Rattle.league_core.specs.search.Options.{has_finish};
ghost use Rattle.league_core.specs.search.Zones.{IsZoneFor};

use crate::help::{asked, is_question_of};
use branch_rules::ZoneSolver;
use league_core::{Claim, Finish, Question, Score};
use local_search::{WalkingSolver, walk};
use reason_core::{Finding, Solver};
use sample_leagues::{Sample, sample_of};
use score_box::{Played, ZoneBox};
use std::alloc::Global;
use std::test::Fail;

const LEVEL: &[u8] = b"league,Level,3\nclub,X,1\nclub,B,2\nclub,A,3\nmatch,X,B\nmatch,A,X
match,B,A\nmatch,B,A\nline,2\nseason\nresult,1,1,0\nresult,2,1,0\nresult,3,1,0\n";

// X is asked about a line, with its points in a window.
fn about(line: u8, low: i32, high: i32) -> Question {
    Question {
        line,
        ..asked(Claim::Inside, low, high)
    }
}

fn last_of(finish: &Finish) -> Option<Score> {
    finish.as_season().scores().last().copied().flatten()
}

fn walked(
    alloc: Global,
    sample: &Sample,
    question: &Question,
    trials: u32,
) -> Result<Option<Score>, Fail>
    requires { IsLeague sample.now.sheet sample.now.season }
{
    if sample.sheet.clubs.len() <= usize::from(question.club) {
        return Err("no club of the league".into());
    }
    match walk(alloc, &sample.sheet, &sample.season, question, trials)? {
        Some((finish, _)) => Ok(last_of(&finish)),
        None => Ok(None),
    }
}

// The score of B-A in the example that a walk comes to; none where it comes to none.
fn found(alloc: Global, question: Question, trials: u32) -> Result<Option<Score>, Fail> {
    let sample = sample_of(alloc, LEVEL).ok_or("no league")?;
    walked(alloc, &sample, &question, trials)
}

#[test]
fn a_walk_finds_the_win_that_is_needed(rt: HostRuntime) -> Result<(), Fail> {
    let score = found(rt.alloc(), about(2, -99, 1800), 2000)?.ok_or("no example")?;
    assert!(rt; score.home < score.away);
    let again = found(rt.alloc(), about(2, -99, 1800), 2000)?;
    assert!(rt; again == Some(score));
    let in_window = found(rt.alloc(), about(2, 2, 3), 2000)?.ok_or("no example in the window")?;
    assert!(rt; in_window.home < in_window.away);
    Ok(())
}

#[test]
fn a_walk_finds_none_without_trials_and_where_there_is_none(rt: HostRuntime) -> Result<(), Fail> {
    assert!(rt; found(rt.alloc(), about(2, -99, 1800), 0)?.is_none());
    assert!(rt; found(rt.alloc(), about(1, -99, 1800), 2000)?.is_none());
    assert!(rt; found(rt.alloc(), about(2, 4, 1800), 2000)?.is_none());
    Ok(())
}

// The number of the zone, the whole season again and again, at which a solver has an example.
fn zones_to_example<W: Solver>(solver: &mut W, question: &Question) -> Result<u32, Fail>
    requires of_sheet { IsQuestionOf (W.sheet solver.old) question.now }
    requires of_zone { IsZoneFor (W.sheet solver.old) question.now [] }
    requires has_finish { IsTrue (has_finish (W.sheet solver.old) (W.season solver.old) []) }
{
    for number in 1..=110 {
        if let Finding::Won(_, _) = solver.solve(question, &[])? {
            return Ok(number);
        }
    }
    Err("no example".into())
}

fn zones_over(alloc: Global, played: &Played, question: &Question) -> Result<u32, Fail>
    requires of_sheet { IsQuestionOf played.now.sheet question.now }
    requires has_finish { IsTrue (has_finish played.now.sheet played.now.season []) }
{
    let zones = ZoneSolver::new(alloc, played)?;
    let mut solver = WalkingSolver::new(alloc, played, zones);
    zones_to_example(&mut solver, question)
}

fn zones_in(alloc: Global, played: &Played, question: &Question) -> Result<u32, Fail> {
    let zone_box = ZoneBox::over(alloc, played, &[])?;
    if !is_question_of(played.sheet(), question) || !zone_box.has_finish() {
        return Err("no question of the league".into());
    }
    zones_over(alloc, played, question)
}

fn zones_of(alloc: Global, sample: &Sample, question: &Question) -> Result<u32, Fail>
    requires { IsLeague sample.now.sheet sample.now.season }
{
    let played = Played::of(alloc, &sample.sheet, &sample.season)?;
    zones_in(alloc, &played, question)
}

#[test]
fn a_solver_walks_at_the_hundredth_zone_of_a_question(rt: HostRuntime) -> Result<(), Fail> {
    let sample = sample_of(rt.alloc(), LEVEL).ok_or("no league")?;
    let zones = zones_of(rt.alloc(), &sample, &about(2, -99, 1800))?;
    assert_eq!(rt; zones, 100);
    Ok(())
}
