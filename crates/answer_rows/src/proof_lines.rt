//! Trees and examples as proof lines.

ghost use Rattle.std.specs.Prelude.{◌≡◌, ◌<◌, ◌++◌, IfOk, OnOk, length, map};
ghost use Rattle.cert_text.specs.TreeLines.{plain_line, marked_line, plain_lines, marked_lines};
ghost use Rattle.cert_text.specs.TreeLines.{with_tree_head, with_spent_head, with_window_head};
ghost use Rattle.cert_text.specs.ExampleLines.{score_line_if, score_lines, example_lines};

use cert_text::{ClubList, ProofLine, marked_line};
use league_core::{Claim, Finish, Listing, Lots, OutOfMemory, Question, Score, Season, TreeNode};
use std::alloc::Global;
use tree_arena::Tree;

/// A refutation of the claim under its head.
pub(crate) fn refutation_lines(
    alloc: Global,
    claim: Claim,
    tree: &Tree,
) -> Result<Vec<ProofLine>, OutOfMemory>
    ensures { IfOk result (λ lines. lines.items ≡ with_tree_head claim (plain_lines tree.now)) }
{
    let nodes = tree.nodes()?;
    let mut lines = Vec::new(alloc);
    lines.push(ProofLine::Tree(claim))?;
    for node in nodes.as_slice() {
        lines.push(plain_line(*node))?;
    }
    Ok(lines)
}

// A node in a refutation.
fn plain_line(node: TreeNode) -> ProofLine
    ensures { result ≡ plain_line node }
{
    match node {
        TreeNode::Split { test, fresh: _ } => ProofLine::Split(test),
        TreeNode::Open | TreeNode::Lent(_) => ProofLine::OpenLeaf,
        TreeNode::Refuted { reason, fresh: _ } => ProofLine::Leaf(reason),
    }
}

/// A tree on which the budget for the claim was spent, under its head. The list is that of its
/// nodes.
pub fn spent_lines(
    alloc: Global,
    claim: Claim,
    nodes: &[TreeNode],
) -> Result<Vec<ProofLine>, OutOfMemory>
    ensures { IfOk result (λ lines. lines.items
        ≡ with_spent_head claim (map marked_line nodes.now)) }
{
    let mut lines = Vec::new(alloc);
    lines.push(ProofLine::Spent(claim))?;
    for node in nodes {
        lines.push(marked_line(*node))?;
    }
    Ok(lines)
}

/// A tree on which the budget for a question was spent, under its head, which names the question's
/// window.
pub fn window_lines(
    alloc: Global,
    question: &Question,
    tree: &Tree,
) -> Result<Vec<ProofLine>, OutOfMemory>
    ensures { IfOk result (λ lines. lines.items
        ≡ with_window_head question.now (marked_lines tree.now)) }
{
    let nodes = tree.nodes()?;
    let mut lines = Vec::new(alloc);
    lines.push(ProofLine::SpentWindow {
        claim: question.claim,
        low: question.low,
        high: question.high,
    })?;
    for node in nodes.as_slice() {
        lines.push(marked_line(*node))?;
    }
    Ok(lines)
}

/// An example of the claim: how the fixtures end that the season has no score for, and the lots.
pub fn example_lines(
    alloc: Global,
    season: &Season,
    claim: Claim,
    finish: &Finish,
    lots: &Lots,
) -> Result<Vec<ProofLine>, OutOfMemory>
    requires same { length finish.now.scores ≡ length season.now.scores }
    requires few { length season.now.scores < 65536 }
    ensures { IfOk result (λ lines. lines.items
        ≡ example_lines claim season.now finish.now lots.now) }
{
    let mut lines = Vec::new(alloc);
    lines.push(ProofLine::Finish(claim))?;
    push_scores(&mut lines, season, finish.as_season())?;
    let list = Listing::from_vec(Vec::from_slice(alloc, lots.order())?);
    lines.push(ProofLine::Lots(ClubList { list }))?;
    Ok(lines)
}

// The scores of the fixtures that the season has none for.
fn push_scores(
    lines: &mut Vec<ProofLine>,
    season: &Season,
    finish: &Season,
) -> Result<(), OutOfMemory>
    requires same { length finish.now.scores ≡ length season.now.scores }
    requires few { length season.now.scores < 65536 }
    ensures { OnOk result (lines.new.items
        ≡ lines.old.items ++ score_lines 0 season.now.scores finish.now.scores) }
{
    for fixture in 0..season.scores().len() as u16 {
        let played = season.score(fixture);
        let ended = finish.score(fixture);
        push_score_if(lines, fixture, played, ended)?;
    }
    Ok(())
}

// The line of a fixture, by its number from 0, if the season has no score for it.
fn push_score_if(
    lines: &mut Vec<ProofLine>,
    fixture: u16,
    played: Option<Score>,
    ended: Option<Score>,
) -> Result<(), OutOfMemory>
    ensures { OnOk result (lines.new.items
        ≡ lines.old.items ++ score_line_if fixture played ended) }
{
    if let (None, Some(score)) = (played, ended) {
        lines.push(ProofLine::Score { fixture, score })?;
    }
    Ok(())
}
