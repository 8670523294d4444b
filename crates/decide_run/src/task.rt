//! One question, searched from its root on with near reasons.

ghost use Rattle.std.specs.Prelude.{◌≡◌, ◌<◌, [], IfOk, IfSome, IsTrue, length};
ghost use Rattle.league_core.specs.game.Questions.{IsQuestionOf};
ghost use Rattle.league_core.specs.game.Results.{are_results};
ghost use Rattle.decide_run.specs.inside.WideLooks.{IsWideExampleOf};
ghost use Rattle.decide_run.specs.inside.WideTasks.{AskedWide, MayLookWide, ShowsWide, Refutes};
ghost use Rattle.decide_run.specs.inside.WideTasks.{Splits};
ghost use Rattle.decide_run.specs.inside.WideTasks.{IsWideSolved, asked_wide_of};

use crate::solver::WideSolver;
use depth_search::{Kind, SearchEnd, ZoneLook, work_through};
use league_core::{Literal, OutOfMemory, Question};
use local_search::walk;
use score_box::Played;
use std::alloc::Global;
use tree_arena::Example;
use wide_lines::WideReason;

/// How many zones of a question are looked at before a walk.
const ZONES_BEFORE_A_WALK: u32 = 49;

/// The trials of the walk after the budget.
const LAST_TRIALS: u32 = 20_000;

/// A question, and what it is worked on with.
#[derive(Drop)]
struct Task<'a, 's> {
    alloc: Global,
    solver: &'a mut WideSolver<'s>,
    played: &'a Played<'a>,
    question: &'a Question,
}

impl<'a, 's> Kind for Task<'a, 's> {
    type Reason = WideReason;

    type Example = Example;

    ghost Subject = { AskedWide };

    ghost subject = { asked_wide_of };

    ghost fits = { MayLookWide };

    ghost shows = { ShowsWide };

    ghost refutes = { Refutes };

    ghost splits = { Splits };

    // The 50th zone is looked at after a walk that found no example.
    fn look(
        &mut self,
        zone: &[Literal],
        spent: u32,
    ) -> Result<ZoneLook<Example, WideReason>, OutOfMemory> {
        if spent == ZONES_BEFORE_A_WALK {
            let open = self.played.unplayed().len().min(600) as u32;
            let trials = open * 50 + 400;
            if let Some(example) = walked(self.alloc, self.played, self.question, trials)? {
                return Ok(ZoneLook::Won(example));
            }
        }
        self.solver.look(self.question, zone)
    }
}

impl<'a, 's> Task<'a, 's> {
    // Depth first, until the question is known or the budget is spent.
    fn work(&mut self, budget: u32) -> Result<SearchEnd<Example, WideReason>, OutOfMemory>
        requires results { IsTrue (are_results self.old.solver.now.season) }
        requires root { MayLookWide (asked_wide_of self.old) [] }
        ensures solved { IfOk result (IsWideSolved self.old.solver.now.sheet
            self.old.solver.now.season self.old.question.now budget) }
        ensures same_worker { self.new.solver.ghost_name ≡ self.old.solver.ghost_name }
        ensures same_sheet { self.new.solver.now.sheet ≡ self.old.solver.now.sheet }
        ensures same_season { self.new.solver.now.season ≡ self.old.solver.now.season }
    {
        work_through(self.alloc, self, budget)
    }
}

// The example of a walk over the season, where so many trials come to one.
fn walked(
    alloc: Global,
    played: &Played,
    question: &Question,
    trials: u32,
) -> Result<Option<Example>, OutOfMemory>
    requires { question.now.club < length played.now.sheet.clubs }
    ensures { IfOk result (λ found. IfSome found
        (IsWideExampleOf played.now.sheet played.now.season question.now)) }
{
    let (sheet, season) = (played.sheet(), played.season());
    match walk(alloc, sheet, season, question, trials)? {
        Some((finish, lots)) => Ok(Some(Example { finish, lots })),
        None => Ok(None),
    }
}

/// Works on a question with the sheet's budget: depth first until it is known, and by a long walk
/// where the budget is spent.
pub(crate) fn solve(
    alloc: Global,
    played: &Played,
    solver: &mut WideSolver,
    question: &Question,
) -> Result<SearchEnd<Example, WideReason>, OutOfMemory>
    requires sheet { solver.old.sheet ≡ played.now.sheet }
    requires season { solver.old.season ≡ played.now.season }
    requires results { IsTrue (are_results played.now.season) }
    requires of_sheet { IsQuestionOf played.now.sheet question.now }
    ensures solved { IfOk result (IsWideSolved played.now.sheet played.now.season question.now
        played.now.sheet.budget) }
    ensures same_sheet { solver.new.sheet ≡ solver.old.sheet }
    ensures same_season { solver.new.season ≡ solver.old.season }
{
    let end = searched(alloc, played, solver, question)?;
    if let SearchEnd::Spent(_) = &end {
        if let Some(example) = walked(alloc, played, question, LAST_TRIALS)? {
            return Ok(SearchEnd::Won(example));
        }
    }
    Ok(end)
}

// The search alone.
fn searched(
    alloc: Global,
    played: &Played,
    solver: &mut WideSolver,
    question: &Question,
) -> Result<SearchEnd<Example, WideReason>, OutOfMemory>
    requires sheet { solver.old.sheet ≡ played.now.sheet }
    requires season { solver.old.season ≡ played.now.season }
    requires results { IsTrue (are_results played.now.season) }
    requires of_sheet { IsQuestionOf played.now.sheet question.now }
    ensures solved { IfOk result (IsWideSolved played.now.sheet played.now.season question.now
        played.now.sheet.budget) }
    ensures same_sheet { solver.new.sheet ≡ solver.old.sheet }
    ensures same_season { solver.new.season ≡ solver.old.season }
{
    let budget = played.sheet().budget;
    let _season = played.season();
    let mut task = Task {
        alloc,
        solver,
        played,
        question,
    };
    task.work(budget)
}
