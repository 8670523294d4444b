//! What a line leaves due of an item, by the grammar.

ghost use Rattle.std.specs.Prelude.{◌≡◌, ◌<◌, IfOk, IsTrue, Some, [], ◌∷◌, length, suc};
ghost use Rattle.cert_text.specs.TreeLines.{is_test_for};
ghost use Rattle.cert_check.specs.ExpectedItems.{Basis, may_refute};
ghost use Rattle.line_tokens.specs.Tokens.{counts};
ghost use Rattle.par_check.specs.Shapes.{shapes_after, shapes_behind_leaf, shapes_behind_node};
ghost use Rattle.par_check.specs.Shapes.{some_nodes};
ghost use Rattle.par_check.specs.Outlines.{question_of, shape_in, shapes_left};

use crate::item_due::{DueAfter, ItemDue, ItemRow, TreeDue};
use crate::item_head::{
    behind_both, behind_finish, behind_lots, behind_one, behind_spent, behind_tree, behind_word,
    next_score,
};
use cert_check::{Report, full_question, head_of, may_refute};
use league_core::{Claim, OutOfMemory, Test};
use line_tokens::{Token, TreeKind, is_test_for, wide_node_of};
use wide_lines::{WideNode, WideReason};

/// What a line leaves due, if it may come there.
pub fn due_after(
    report: &Report,
    row: ItemRow,
    due: ItemDue,
    token: &Token,
) -> Result<Option<DueAfter>, OutOfMemory>
    requires { row.club < length report.now.basis.sheet.clubs }
    ensures { IfOk result (λ left. shapes_left report.now.basis row left
        ≡ shapes_after report.now.basis (shape_in report.now.basis row due) token.now) }
{
    match token {
        Token::Blank => Ok(Some(DueAfter::One(due))),
        Token::Row(_) => due_behind(report, row, due, token),
        Token::Proof(_) => due_behind(report, row, due, token),
        Token::Near { .. } => due_behind(report, row, due, token),
        Token::Unknown => Ok(None),
    }
}

// The same of a line that counts.
fn due_behind(
    report: &Report,
    row: ItemRow,
    due: ItemDue,
    token: &Token,
) -> Result<Option<DueAfter>, OutOfMemory>
    requires in_range { row.club < length report.now.basis.sheet.clubs }
    requires counted { IsTrue (counts token.now) }
    ensures { IfOk result (λ left. shapes_left report.now.basis row left
        ≡ shapes_after report.now.basis (shape_in report.now.basis row due) token.now) }
{
    match due {
        ItemDue::Row => Ok(behind_word(report.word_in(token, row.line, row.club)?)),
        ItemDue::TreeHead(claim) => Ok(behind_tree(head_of(token, claim), claim)),
        ItemDue::SpentHead(claim) => Ok(behind_spent(head_of(token, claim), claim)),
        ItemDue::FinishHead(claim) => Ok(behind_finish(report, head_of(token, claim), claim)),
        ItemDue::BothParts => Ok(behind_both(report, head_of(token, Claim::Inside))),
        ItemDue::OnePart(claim) => Ok(behind_one(report, head_of(token, claim), claim)),
        ItemDue::Nodes(tree) => behind_node(report, row, tree, wide_node_of(tree.kind, token)),
        ItemDue::Score { claim, fixture } => Ok(behind_score(report, claim, fixture, token)),
        ItemDue::Lots(_) => Ok(behind_lots(report.lots_in(token)?.is_some())),
    }
}

// What a line leaves due of a tree, if it stands for a node.
fn behind_node(
    report: &Report,
    row: ItemRow,
    tree: TreeDue,
    node: Option<WideNode>,
) -> Result<Option<DueAfter>, OutOfMemory>
    requires { row.club < length report.now.basis.sheet.clubs }
    ensures { IfOk result (λ left. shapes_left report.now.basis row left
        ≡ shapes_behind_node report.now.basis tree.kind (question_of row tree.claim) tree.behind
        node) }
{
    match node {
        Some(node) => behind_this_node(report, row, tree, node),
        None => Ok(None),
    }
}

fn behind_this_node(
    report: &Report,
    row: ItemRow,
    tree: TreeDue,
    node: WideNode,
) -> Result<Option<DueAfter>, OutOfMemory>
    requires { row.club < length report.now.basis.sheet.clubs }
    ensures { IfOk result (λ left. shapes_left report.now.basis row left
        ≡ shapes_behind_node report.now.basis tree.kind (question_of row tree.claim) tree.behind
        (Some node)) }
{
    match node {
        WideNode::Split { test, .. } => {
            if may_split(report, row, tree.claim, test) {
                Ok(Some(behind_split(tree)?))
            } else {
                Ok(None)
            }
        }
        WideNode::Refuted { reason, .. } => {
            if may_have_leaf(report, row, tree.claim, reason) {
                Ok(Some(behind_leaf(tree)))
            } else {
                Ok(None)
            }
        }
        WideNode::Open => Ok(Some(behind_leaf(tree))),
    }
}

fn may_split(report: &Report, row: ItemRow, claim: Claim, test: Test) -> bool
    ensures { result ≡ is_test_for report.now.basis.sheet (question_of row claim) test }
{
    let question = full_question(row.club, row.line, claim);
    is_test_for(report.sheet(), &question, test)
}

fn may_have_leaf(report: &Report, row: ItemRow, claim: Claim, reason: WideReason) -> bool
    requires { row.club < length report.now.basis.sheet.clubs }
    ensures { result ≡ may_refute report.now.basis.kind report.now.basis.sheet
        (question_of row claim) reason }
{
    report.recall_invariant();
    let question = full_question(row.club, row.line, claim);
    may_refute(report.kind(), report.sheet(), &question, reason)
}

// One zone more behind the one that is due. Where their number would not fit, memory was exhausted
// long before.
fn behind_split(tree: TreeDue) -> Result<DueAfter, OutOfMemory>
    ensures { IfOk result (λ left. (basis : Basis) (row : ItemRow)
        → shapes_left basis row (Some left)
        ≡ Some (some_nodes tree.kind (question_of row tree.claim) (suc tree.behind) ∷ [])) }
{
    match tree.behind.checked_add(1) {
        Some(behind) => Ok(DueAfter::One(ItemDue::Nodes(TreeDue { behind, ..tree }))),
        None => Err(OutOfMemory),
    }
}

fn behind_leaf(tree: TreeDue) -> DueAfter
    ensures { (basis : Basis) (row : ItemRow)
        → shapes_left basis row (Some result)
        ≡ Some (shapes_behind_leaf tree.kind (question_of row tree.claim) tree.behind) }
{
    if tree.behind == 0 {
        DueAfter::Nothing
    } else {
        let behind = tree.behind - 1;
        DueAfter::One(ItemDue::Nodes(TreeDue { behind, ..tree }))
    }
}

fn behind_score(report: &Report, claim: Claim, fixture: u16, token: &Token) -> Option<DueAfter>
    requires { IsTrue (counts token.now) }
    ensures { (row : ItemRow) → shapes_left report.now.basis row result
        ≡ shapes_after report.now.basis
        (shape_in report.now.basis row (ItemDue.Score claim fixture)) token.now }
{
    match report.score_in(token, fixture) {
        Some(_) => Some(DueAfter::One(next_score(report, claim, u32::from(fixture) + 1))),
        None => None,
    }
}
