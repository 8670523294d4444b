//! What stands for one question in an answer with near reasons.

ghost use Rattle.std.specs.Prelude.{◌≡◌, IfOk, IsTrue};
ghost use Rattle.league_core.specs.game.Questions.{IsExample, IsQuestionOf};
ghost use Rattle.league_core.specs.game.Results.{are_results};
ghost use Rattle.decide_run.specs.inside.WideParts.{IsWidePart};
ghost use Rattle.decide_run.specs.inside.WideTasks.{IsRefutedBy, IsSpentOn};

use crate::lines::{refutation_lines, spent_lines, widened};
use crate::solver::WideSolver;
use crate::task::solve;
use answer_rows::{Part, PartKind};
use depth_search::{CaseNode, SearchEnd};
use league_core::{OutOfMemory, Question};
use score_box::Played;
use std::alloc::Global;
use tree_arena::Example;
use wide_lines::{WideLine, WideReason};

/// The part of a question, by work on it from its root on.
pub(crate) fn part_of(
    alloc: Global,
    played: &Played,
    solver: &mut WideSolver,
    question: &Question,
) -> Result<Part<WideLine>, OutOfMemory>
    requires sheet { solver.old.sheet ≡ played.now.sheet }
    requires season { solver.old.season ≡ played.now.season }
    requires results { IsTrue (are_results played.now.season) }
    requires of_sheet { IsQuestionOf played.now.sheet question.now }
    ensures part { IfOk result (IsWidePart played.now.sheet played.now.season question.now) }
    ensures same_sheet { solver.new.sheet ≡ solver.old.sheet }
    ensures same_season { solver.new.season ≡ solver.old.season }
{
    match solve(alloc, played, solver, question)? {
        SearchEnd::Won(example) => won(alloc, played, question, &example),
        SearchEnd::Refuted(nodes) => refuted(alloc, played, question, nodes),
        SearchEnd::Spent(nodes) => spent(alloc, played, question, nodes),
    }
}

// That of an example.
fn won(
    alloc: Global,
    played: &Played,
    question: &Question,
    example: &Example,
) -> Result<Part<WideLine>, OutOfMemory>
    requires results { IsTrue (are_results played.now.season) }
    requires example { IsExample played.now.sheet played.now.season question.now
        example.now.finish example.now.lots }
    ensures { IfOk result (IsWidePart played.now.sheet played.now.season question.now) }
{
    let (sheet, season) = (played.sheet(), played.season());
    let Example { finish, lots } = example;
    let part = Part::won(alloc, sheet, season, question, finish, lots)?;
    let lines = widened(alloc, part.lines)?;
    let kind = PartKind::Won;
    Ok(Part { kind, lines })
}

// That of the nodes of a refutation.
fn refuted(
    alloc: Global,
    played: &Played,
    question: &Question,
    nodes: Vec<CaseNode<WideReason>>,
) -> Result<Part<WideLine>, OutOfMemory>
    requires { IsRefutedBy played.now.sheet played.now.season question.now nodes.items }
    ensures { IfOk result (IsWidePart played.now.sheet played.now.season question.now) }
{
    let lines = refutation_lines(alloc, question.claim, nodes)?;
    let kind = PartKind::Refuted;
    Ok(Part { kind, lines })
}

// That of the nodes of a tree on which the budget was spent.
fn spent(
    alloc: Global,
    played: &Played,
    question: &Question,
    nodes: Vec<CaseNode<WideReason>>,
) -> Result<Part<WideLine>, OutOfMemory>
    requires { IsSpentOn played.now.sheet played.now.season question.now played.now.sheet.budget
        nodes.items }
    ensures { IfOk result (IsWidePart played.now.sheet played.now.season question.now) }
{
    let lines = spent_lines(alloc, question.claim, nodes)?;
    let kind = PartKind::Spent;
    Ok(Part { kind, lines })
}
