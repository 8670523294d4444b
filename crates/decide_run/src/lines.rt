//! What a search came to, as wide lines.

ghost use Rattle.std.specs.Prelude.{◌≡◌, IfOk, map};
ghost use Rattle.wide_lines.specs.declared.wide_line.WideLine.TheVariants as wide;
ghost use Rattle.wide_lines.specs.WideTreeLines.{leaf_line, new_leaf_line, marked_wide_line};
ghost use Rattle.wide_lines.specs.WideTreeLines.{plain_wide_line};
ghost use Rattle.wide_lines.specs.WideTreeLines.{with_wide_spent_head, with_wide_tree_head};
ghost use Rattle.decide_run.specs.inside.WideTasks.{new_wide_node};

use cert_text::ProofLine;
use depth_search::CaseNode;
use league_core::{Claim, OutOfMemory};
use std::alloc::Global;
use wide_lines::{WideLine, WideReason};

/// The nodes of a refutation of the claim, under its head.
pub(crate) fn refutation_lines(
    alloc: Global,
    claim: Claim,
    nodes: Vec<CaseNode<WideReason>>,
) -> Result<Vec<WideLine>, OutOfMemory>
    ensures { IfOk result (λ lines. lines.items
        ≡ with_wide_tree_head claim (map plain_wide_line (map new_wide_node nodes.items))) }
{
    let mut lines = Vec::new(alloc);
    lines.push(WideLine::Plain(ProofLine::Tree(claim)))?;
    for node in nodes {
        lines.push(plain_wide_line(node))?;
    }
    Ok(lines)
}

// A node in a refutation.
fn plain_wide_line(node: CaseNode<WideReason>) -> WideLine
    ensures { result ≡ plain_wide_line (new_wide_node node) }
{
    match node {
        CaseNode::Split(test) => WideLine::Plain(ProofLine::Split(test)),
        CaseNode::Refuted(reason) => leaf_line(reason),
        CaseNode::Open => WideLine::Plain(ProofLine::OpenLeaf),
    }
}

fn leaf_line(reason: WideReason) -> WideLine
    ensures { result ≡ leaf_line reason }
{
    match reason {
        WideReason::Plain(why) => WideLine::Plain(ProofLine::Leaf(why)),
        WideReason::Near(rival) => WideLine::Near(rival),
    }
}

/// The nodes of a tree on which the budget for the claim was spent, all new, under its head.
pub(crate) fn spent_lines(
    alloc: Global,
    claim: Claim,
    nodes: Vec<CaseNode<WideReason>>,
) -> Result<Vec<WideLine>, OutOfMemory>
    ensures { IfOk result (λ lines. lines.items
        ≡ with_wide_spent_head claim (map marked_wide_line (map new_wide_node nodes.items))) }
{
    let mut lines = Vec::new(alloc);
    lines.push(WideLine::Plain(ProofLine::Spent(claim)))?;
    for node in nodes {
        lines.push(marked_wide_line(node))?;
    }
    Ok(lines)
}

// A new node in a tree on which a budget was spent.
fn marked_wide_line(node: CaseNode<WideReason>) -> WideLine
    ensures { result ≡ marked_wide_line (new_wide_node node) }
{
    match node {
        CaseNode::Split(test) => WideLine::Plain(ProofLine::NewSplit(test)),
        CaseNode::Refuted(reason) => new_leaf_line(reason),
        CaseNode::Open => WideLine::Plain(ProofLine::OpenLeaf),
    }
}

fn new_leaf_line(reason: WideReason) -> WideLine
    ensures { result ≡ new_leaf_line reason }
{
    match reason {
        WideReason::Plain(why) => WideLine::Plain(ProofLine::NewLeaf(why)),
        WideReason::Near(rival) => WideLine::NewNear(rival),
    }
}

/// The lines of other answers as wide lines.
pub(crate) fn widened(alloc: Global, lines: Vec<ProofLine>) -> Result<Vec<WideLine>, OutOfMemory>
    ensures { IfOk result (λ all. all.items ≡ map (λ line. wide.Plain line) lines.items) }
{
    let mut all = Vec::with_capacity(alloc, lines.len())?;
    for line in lines {
        all.push(WideLine::Plain(line))?;
    }
    Ok(all)
}
