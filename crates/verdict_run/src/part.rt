//! What stands for one question in an answer.

ghost use Rattle.std.specs.Prelude.{◌≡◌, ◌≢◌, ◌<◌, IfOk, IfSome, IsTrue, length};
ghost use Rattle.std.specs.List.{list_all};
ghost use Rattle.league_core.specs.game.Results.{are_results};
ghost use Rattle.league_core.specs.game.Seasons.{IsLeague};
ghost use Rattle.league_core.specs.game.Questions.{IsQuestionOf};
ghost use Rattle.cert_text.specs.TreeLines.{IsFairSpentTree};
ghost use Rattle.cert_text.specs.TreeLines.{marked_lines};
ghost use Rattle.cert_text.specs.TreeLines.{with_spent_head};
ghost use Rattle.cert_text.specs.ExampleLines as shown;
ghost use Rattle.answer_rows.specs.NewTrees.{is_all_new, is_not_old};
ghost use Rattle.verdict_run.specs.inside.Working.{AreSettled, IsEnough};
ghost use Rattle.answer_rows.specs.inside.AnswerParts.{IsAnswerPart, IsRefutedPart};
ghost use Rattle.verdict_run.specs.inside.Parts.{IsPartAt, IsDoneSeat};
ghost use Rattle.verdict_run.specs.inside.Parts.{IsRefutedAt};
ghost use Rattle.verdict_run.specs.inside.Kept.{IsOfSeat, IsOfPlace, IsFoundIfRefuted, IsFoundAt};

use crate::fresh::solve_fresh;
use answer_rows::{Part, PartKind, Solved};
use branch_pool::{Pool, QuestionState};
use league_core::{OutOfMemory, Question, Season, Sheet, TreeNode};
use std::alloc::Global;
use tree_arena::Tree;

/// The part of the question at a place. A tree that is not all new is no part of an answer: if the
/// budget was spent on one, the question is worked on once more from its root.
pub(crate) fn part_of(alloc: Global, pool: &Pool, place: u16) -> Result<Part, OutOfMemory>
    requires in_range { place < length pool.now.questions }
    requires settled { AreSettled pool.now }
    ensures part { IfOk result (IsPartAt pool.now place) }
    ensures enough { IfOk result (λ part. IsEnough pool.now.sheet pool.now.season
        → part.kind ≢ PartKind.Spent) }
    ensures of_pool { IfOk result (IsOfPlace pool.now place) }
{
    pool.recall_invariant();
    part_of_seat(alloc, pool.sheet(), pool.season(), pool.seat(place))
}

/// The part of the question at a place, if its tree is refuted.
pub(crate) fn refuted_at(
    alloc: Global,
    pool: &Pool,
    place: u16,
) -> Result<Option<Part>, OutOfMemory>
    requires in_range { place < length pool.now.questions }
    requires settled { AreSettled pool.now }
    ensures part { IfOk result (λ found. IfSome found (IsRefutedAt pool.now place)) }
    ensures of_pool { IfOk result (IsFoundAt pool.now place) }
{
    pool.recall_invariant();
    refuted_seat(alloc, pool.sheet(), pool.season(), pool.seat(place))
}

fn part_of_seat(
    alloc: Global,
    sheet: &Sheet,
    season: &Season,
    seat: &QuestionState,
) -> Result<Part, OutOfMemory>
    requires { IsDoneSeat sheet.now season.now seat.now }
    ensures part { IfOk result (IsAnswerPart sheet.now season.now seat.now.question) }
    ensures enough { IfOk result (λ part. IsEnough sheet.now season.now
        → part.kind ≢ PartKind.Spent) }
    ensures of_seat { IfOk result (IsOfSeat sheet.now season.now seat.now) }
{
    match &seat.example {
        Some(example) => Part::won(
            alloc,
            sheet,
            season,
            &seat.question,
            &example.finish,
            &example.lots,
        ),
        None if seat.tree.is_refuted() => {
            Part::refuted(alloc, sheet, season, &seat.question, &seat.tree)
        }
        None => spent_or_fresh(alloc, sheet, season, &seat.question, &seat.tree),
    }
}

fn refuted_seat(
    alloc: Global,
    sheet: &Sheet,
    season: &Season,
    seat: &QuestionState,
) -> Result<Option<Part>, OutOfMemory>
    requires { IsDoneSeat sheet.now season.now seat.now }
    ensures part { IfOk result (λ found.
        IfSome found (IsRefutedPart sheet.now season.now seat.now.question)) }
    ensures of_seat { IfOk result (IsFoundIfRefuted seat.now) }
{
    if seat.tree.is_refuted() {
        let part = Part::refuted(alloc, sheet, season, &seat.question, &seat.tree)?;
        Ok(Some(part))
    } else {
        Ok(None)
    }
}

fn spent_or_fresh(
    alloc: Global,
    sheet: &Sheet,
    season: &Season,
    question: &Question,
    tree: &Tree,
) -> Result<Part, OutOfMemory>
    requires league { IsLeague sheet.now season.now }
    requires results { IsTrue (are_results season.now) }
    requires of_sheet { IsQuestionOf sheet.now question.now }
    requires spent { IsFairSpentTree sheet.now season.now question.now sheet.now.budget tree.now }
    ensures part { IfOk result (IsAnswerPart sheet.now season.now question.now) }
    ensures lines { IfOk result (λ part. IsTrue (is_all_new tree.now) → part.lines.items
        ≡ with_spent_head question.now.claim (marked_lines tree.now)) }
{
    if all_new(tree)? {
        return Part::spent(alloc, question, tree);
    }
    match solve_fresh(alloc, sheet, season, question)? {
        Solved::Won(finish, lots) => Part::won(alloc, sheet, season, question, &finish, &lots),
        Solved::Refuted(tree) => Part::refuted(alloc, sheet, season, question, &tree),
        Solved::Spent(tree) => Part::spent(alloc, question, &tree),
    }
}

// Each split and each refuted leaf is of the present epoch.
fn all_new(tree: &Tree) -> Result<bool, OutOfMemory>
    ensures { IfOk result (λ all. all ≡ is_all_new tree.now) }
{
    let nodes = tree.nodes()?;
    Ok(are_all_new(nodes.as_slice()))
}

fn are_all_new(nodes: &[TreeNode]) -> bool
    ensures { result ≡ list_all is_not_old nodes.now }
{
    nodes.iter().all(|node| is_not_old(*node))
}

fn is_not_old(node: TreeNode) -> bool
    ensures { result ≡ is_not_old node }
{
    match node {
        TreeNode::Split { test: _, fresh } => fresh,
        TreeNode::Refuted { reason: _, fresh } => fresh,
        TreeNode::Open | TreeNode::Lent(_) => true,
    }
}
