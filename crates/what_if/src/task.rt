//! One question, searched from its root on, given a zone.

ghost use Rattle.std.specs.Prelude.{◌≡◌, [], ◌++◌, IfOk, IsTrue, OnOk};
ghost use Rattle.league_core.specs.game.Seasons.{IsLeague};
ghost use Rattle.league_core.specs.game.Questions.{IsQuestionOf};
ghost use Rattle.league_core.specs.search.Options.{has_finish};
ghost use Rattle.league_core.specs.game.Results.{are_results};
ghost use Rattle.what_if.specs.Bases.{is_base_of};
ghost use Rattle.what_if.specs.inside.Tasks.{Asked, MayLook, ShowsBelow, RefutesBelow};
ghost use Rattle.what_if.specs.inside.Tasks.{SplitsBelow, IsSolvedGiven, asked_of, look_of};

use crate::hints::Hints;
use branch_rules::ZoneSolver;
use depth_search::{Kind, SearchEnd, ZoneLook, work_through};
use league_core::{Literal, OutOfMemory, Question, Reason};
use reason_core::{Finding, Solver};
use std::alloc::Global;
use tree_arena::Example;

/// A question given a base, and what it is worked on with.
#[derive(Drop)]
struct Task<'a, 's> {
    alloc: Global,
    solver: &'a mut ZoneSolver<'s>,
    question: &'a Question,
    base: &'a [Literal],
    hints: &'a Hints<'a>,
    // The zone that was looked at last: the base, and after it the way from the root.
    zone: &'a mut Vec<Literal>,
}

impl<'a, 's> Kind for Task<'a, 's> {
    type Reason = Reason;

    type Example = Example;

    ghost Subject = { Asked };

    ghost subject = { asked_of };

    ghost fits = { MayLook };

    ghost shows = { ShowsBelow };

    ghost refutes = { RefutesBelow };

    ghost splits = { SplitsBelow };

    // An example is found beside the search, or the worker finds one of the three.
    fn look(
        &mut self,
        way: &[Literal],
        spent: u32,
    ) -> Result<ZoneLook<Example, Reason>, OutOfMemory> {
        let found = self
            .hints
            .found(self.alloc, self.question, self.base, spent)?;
        if let Some(example) = found {
            return Ok(ZoneLook::Won(example));
        }
        put_zone(self.zone, self.base, way)?;
        let finding = self.solver.solve(self.question, self.zone.as_slice())?;
        Ok(look_of(finding))
    }
}

impl<'a, 's> Task<'a, 's> {
    // Depth first, until the question is known or the budget is spent.
    fn work(&mut self, budget: u32) -> Result<SearchEnd<Example, Reason>, OutOfMemory>
        requires results { IsTrue (are_results self.old.solver.now.season) }
        requires root { MayLook (asked_of self.old) [] }
        ensures solved { IfOk result (IsSolvedGiven self.old.solver.now.sheet
            self.old.solver.now.season self.old.question.now self.old.base.now budget) }
        ensures same_worker { self.new.solver.ghost_name ≡ self.old.solver.ghost_name }
        ensures same_sheet { self.new.solver.now.sheet ≡ self.old.solver.now.sheet }
        ensures same_season { self.new.solver.now.season ≡ self.old.solver.now.season }
    {
        work_through(self.alloc, self, budget)
    }
}

// The zone that a base and a way from the root below it make.
fn put_zone(zone: &mut Vec<Literal>, base: &[Literal], way: &[Literal]) -> Result<(), OutOfMemory>
    ensures { OnOk result (zone.new.items ≡ base.now ++ way.now) }
{
    zone.clear();
    zone.extend_from_slice(base)?;
    zone.extend_from_slice(way)?;
    Ok(())
}

fn look_of(finding: Finding) -> ZoneLook<Example, Reason>
    ensures { result ≡ look_of finding }
{
    match finding {
        Finding::Won(finish, lots) => ZoneLook::Won(Example { finish, lots }),
        Finding::Refuted(reason) => ZoneLook::Refuted(reason),
        Finding::Split(literal) => ZoneLook::Split(literal.test),
    }
}

/// Works on a question given a base, depth first, until it is known or the budget is spent.
pub(crate) fn solve_given(
    alloc: Global,
    solver: &mut ZoneSolver,
    question: &Question,
    base: &[Literal],
    hints: &Hints,
    budget: u32,
) -> Result<SearchEnd<Example, Reason>, OutOfMemory>
    requires league { IsLeague solver.old.sheet solver.old.season }
    requires results { IsTrue (are_results solver.old.season) }
    requires of_sheet { IsQuestionOf solver.old.sheet question.now }
    requires base { IsTrue (is_base_of solver.old.sheet base.now) }
    requires has_finish { IsTrue (has_finish solver.old.sheet solver.old.season base.now) }
    requires sheet { solver.old.sheet ≡ hints.now.played.now.sheet }
    requires season { solver.old.season ≡ hints.now.played.now.season }
    ensures solved { IfOk result
        (IsSolvedGiven solver.old.sheet solver.old.season question.now base.now budget) }
    ensures same_sheet { solver.new.sheet ≡ solver.old.sheet }
    ensures same_season { solver.new.season ≡ solver.old.season }
{
    let mut zone = Vec::new(alloc);
    let mut task = Task {
        alloc,
        solver,
        question,
        base,
        hints,
        zone: &mut zone,
    };
    task.work(budget)
}
