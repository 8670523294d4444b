//! Which node of a tree a line stands for.

ghost use Rattle.std.specs.Prelude.{◌≡◌, Some, IfSome};
ghost use Rattle.line_tokens.specs.Tokens.{token_of};
ghost use Rattle.line_tokens.specs.TreeNodes.{node_in, near_node_in, wide_node_in};
ghost use Rattle.line_tokens.specs.inside.NodeCalls.{node_of_token};

use crate::token::{Token, begins_proof};
use cert_text::{ProofLine, node_in_line};
use league_core::TreeNode;
use wide_lines::{WideNode, WideReason, widened};

/// What a tree in a text stands for.
#[derive(Clone, Copy)]
pub enum TreeKind {
    /// Each leaf is refuted; no node is marked new.
    Refutation,
    /// The budget was spent on it, and a leaf is open.
    Spent,
}

/// The node of a tree of this kind that a line stands for.
pub fn node_of(kind: TreeKind, token: &Token) -> Option<TreeNode>
    ensures { result ≡ node_of_token kind token.now }
{
    match token {
        Token::Proof(line) => match kind {
            TreeKind::Refutation => refutation_node(line),
            TreeKind::Spent => spent_node(line),
        },
        _ => None,
    }
}

/// The node that a text stands for in a spent tree, if it is the node's own line; no token is made
/// of it. Nothing may be found in another text of such a line.
#[inline(always)]
pub fn spent_node_in(text: &[u8]) -> Option<TreeNode>
    ensures { IfSome result (λ node.
        node_of_token TreeKind.Spent (token_of text.now) ≡ Some node) }
{
    if begins_proof(text) {
        node_in_line(text)
    } else {
        None
    }
}

fn refutation_node(line: &ProofLine) -> Option<TreeNode>
    ensures { result ≡ node_in TreeKind.Refutation line.now }
{
    let fresh = false;
    match line {
        ProofLine::Split(test) => Some(TreeNode::Split { test: *test, fresh }),
        ProofLine::Leaf(reason) => Some(TreeNode::Refuted {
            reason: *reason,
            fresh,
        }),
        _ => None,
    }
}

fn spent_node(line: &ProofLine) -> Option<TreeNode>
    ensures { result ≡ node_in TreeKind.Spent line.now }
{
    match line {
        ProofLine::Split(test) => Some(TreeNode::Split {
            test: *test,
            fresh: false,
        }),
        ProofLine::NewSplit(test) => Some(TreeNode::Split {
            test: *test,
            fresh: true,
        }),
        ProofLine::Leaf(reason) => Some(TreeNode::Refuted {
            reason: *reason,
            fresh: false,
        }),
        ProofLine::NewLeaf(reason) => Some(TreeNode::Refuted {
            reason: *reason,
            fresh: true,
        }),
        ProofLine::OpenLeaf => Some(TreeNode::Open),
        _ => None,
    }
}

/// The node of a wide tree of this kind that a line stands for.
pub fn wide_node_of(kind: TreeKind, token: &Token) -> Option<WideNode>
    ensures { result ≡ wide_node_in kind token.now }
{
    match token {
        Token::Near { rival, fresh } => near_node(kind, *rival, *fresh),
        Token::Proof(_) => Some(widened(node_of(kind, token)?)),
        _ => None,
    }
}

fn near_node(kind: TreeKind, rival: u8, fresh: bool) -> Option<WideNode>
    ensures { result ≡ near_node_in kind rival fresh }
{
    let reason = WideReason::Near(rival);
    match kind {
        TreeKind::Refutation if fresh => None,
        _ => Some(WideNode::Refuted { reason, fresh }),
    }
}
