//! What stands for one question given a base.

ghost use Rattle.std.specs.Prelude.{◌≡◌, [], IfOk, map};
ghost use Rattle.league_core.specs.game.Questions.{IsExample, IsQuestionOf};
ghost use Rattle.depth_search.specs.inside.ZoneTrees.{new_node};
ghost use Rattle.cert_text.specs.TreeLines.{marked_line, with_spent_head};
ghost use Rattle.what_if.specs.inside.GivenParts.{IsAnswerPartGiven, IsBaseIn};

use crate::hints::Hints;
use crate::known_season::KnownSeason;
use crate::literals::are_true;
use crate::season_part::InSeason;
use crate::task::solve_given;
use answer_rows::{Part, PartKind, spent_lines};
use branch_rules::ZoneSolver;
use depth_search::{CaseNode, SearchEnd, new_nodes};
use league_core::{Literal, OutOfMemory, Question, Reason};
use std::alloc::Global;
use tree_arena::Example;

/// The part of a question, worked on from its root on, below the base: an example that is a member
/// of the base, or the tree on which the budget was spent. No line shows that it holds nowhere.
pub(crate) fn part_given(
    alloc: Global,
    stage: &KnownSeason,
    solver: &mut ZoneSolver,
    question: &Question,
    base: &[Literal],
) -> Result<Part, OutOfMemory>
    requires sheet { solver.old.sheet ≡ stage.now.sheet }
    requires season { solver.old.season ≡ stage.now.season }
    requires of_sheet { IsQuestionOf stage.now.sheet question.now }
    requires base { IsBaseIn stage.now.sheet stage.now.season base.now }
    ensures part { IfOk result
        (IsAnswerPartGiven stage.now.sheet stage.now.season base.now question.now) }
    ensures same_sheet { solver.new.sheet ≡ solver.old.sheet }
    ensures same_season { solver.new.season ≡ solver.old.season }
{
    match stage.known(question) {
        Some(InSeason::Nowhere) => Ok(refuted(alloc)),
        Some(InSeason::Met(example)) => part_by(alloc, stage, solver, question, base, example),
        _ => worked(alloc, stage, solver, question, base, None),
    }
}

// The same, where an example of the season is known: if it is no member of the base, the question
// is worked on.
fn part_by(
    alloc: Global,
    stage: &KnownSeason,
    solver: &mut ZoneSolver,
    question: &Question,
    base: &[Literal],
    example: &Example,
) -> Result<Part, OutOfMemory>
    requires sheet { solver.old.sheet ≡ stage.now.sheet }
    requires season { solver.old.season ≡ stage.now.season }
    requires of_sheet { IsQuestionOf stage.now.sheet question.now }
    requires base { IsBaseIn stage.now.sheet stage.now.season base.now }
    requires example { IsExample stage.now.sheet stage.now.season question.now
        example.now.finish example.now.lots }
    ensures part { IfOk result
        (IsAnswerPartGiven stage.now.sheet stage.now.season base.now question.now) }
    ensures same_sheet { solver.new.sheet ≡ solver.old.sheet }
    ensures same_season { solver.new.season ≡ solver.old.season }
{
    let (sheet, season) = (stage.sheet(), stage.season());
    let _scores = season.scores();
    let Example { finish, lots } = example;
    if are_true(base, finish.as_season()) {
        Part::won(alloc, sheet, season, question, finish, lots)
    } else {
        worked(alloc, stage, solver, question, base, Some(example))
    }
}

// The same by work on the question, with an example of the season to move.
fn worked(
    alloc: Global,
    stage: &KnownSeason,
    solver: &mut ZoneSolver,
    question: &Question,
    base: &[Literal],
    example: Option<&Example>,
) -> Result<Part, OutOfMemory>
    requires sheet { solver.old.sheet ≡ stage.now.sheet }
    requires season { solver.old.season ≡ stage.now.season }
    requires of_sheet { IsQuestionOf stage.now.sheet question.now }
    requires base { IsBaseIn stage.now.sheet stage.now.season base.now }
    ensures part { IfOk result
        (IsAnswerPartGiven stage.now.sheet stage.now.season base.now question.now) }
    ensures same_sheet { solver.new.sheet ≡ solver.old.sheet }
    ensures same_season { solver.new.season ≡ solver.old.season }
{
    let (sheet, season) = (stage.sheet(), stage.season());
    let budget = sheet.budget;
    let _scores = season.scores();
    let played = stage.played();
    let hints = Hints { played, example };
    match solve_given(alloc, solver, question, base, &hints, budget)? {
        SearchEnd::Won(example) => Part::won(
            alloc,
            sheet,
            season,
            question,
            &example.finish,
            &example.lots,
        ),
        SearchEnd::Refuted(_) => Ok(refuted(alloc)),
        SearchEnd::Spent(nodes) => spent(alloc, question, nodes),
    }
}

fn refuted(alloc: Global) -> Part
    ensures kind { result.kind ≡ PartKind.Refuted }
    ensures lines { result.lines.items ≡ [] }
{
    let lines = Vec::new(alloc);
    let kind = PartKind::Refuted;
    Part { kind, lines }
}

// The nodes of a tree on which the budget was spent, under their head.
fn spent(
    alloc: Global,
    question: &Question,
    nodes: Vec<CaseNode<Reason>>,
) -> Result<Part, OutOfMemory>
    ensures kind { IfOk result (λ part. part.kind ≡ PartKind.Spent) }
    ensures lines { IfOk result (λ part. part.lines.items
        ≡ with_spent_head question.now.claim (map marked_line (map new_node nodes.items))) }
{
    let nodes = new_nodes(alloc, nodes)?;
    let lines = spent_lines(alloc, question.claim, nodes.as_slice())?;
    let kind = PartKind::Spent;
    Ok(Part { kind, lines })
}
