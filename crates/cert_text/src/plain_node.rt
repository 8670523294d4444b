//! The lines of trees out of their own texts, byte by byte and without memory. Nearly all lines of
//! a saved text are such lines.

ghost use Rattle.std.specs.Prelude.{◌≡◌, IfSome, false, codes};
ghost use Rattle.cert_text.specs.inside.PlainForms.{IsLineOfNode, IsReasonAtEnd, IsSetAtEnd};
ghost use Rattle.cert_text.specs.inside.PlainForms.{next_named, node_begun, node_named};

use crate::plain_number::{cut_at_end, is_all};
use crate::plain_test::test;
use league_core::limits::{MOST_CLUBS, MOST_FIXTURES};
use league_core::{Reason, TreeNode};

/// The node whose own line this is, in a tree whose new nodes are marked; never one that a worker
/// holds. Nothing may be found in another text of a line.
#[inline(always)]
pub fn node_in_line(text: &[u8]) -> Option<TreeNode>
    ensures { IfSome result (IsLineOfNode text.now) }
{
    match text {
        [b'[', b'"', b'o', b'p', b'e', b'n', b'"', rest @ ..] => open_leaf(rest),
        [b'[', b'"', rest @ ..] => marked_node(rest),
        _ => None,
    }
}

fn open_leaf(text: &[u8]) -> Option<TreeNode>
    ensures { IfSome result (IsLineOfNode (node_named false (codes "open") text.now)) }
{
    if is_all(text, b"]") {
        Some(TreeNode::Open)
    } else {
        None
    }
}

// A node that may have a mark.
#[inline(always)]
fn marked_node(text: &[u8]) -> Option<TreeNode>
    ensures { IfSome result (IsLineOfNode (node_begun false text.now)) }
{
    let (fresh, rest) = mark(text);
    node(rest, fresh)
}

// Whether the text begins with the mark of a new node, and what comes after it.
#[inline(always)]
fn mark(text: &[u8]) -> (bool, &[u8])
    ensures { node_begun result.0 result.1.now ≡ node_begun false text.now }
{
    match text {
        [b'n', b'e', b'w', b'_', rest @ ..] => (true, rest),
        _ => (false, text),
    }
}

// A node that is marked or not, by what comes after the mark.
#[inline(always)]
fn node(text: &[u8], fresh: bool) -> Option<TreeNode>
    ensures { IfSome result (IsLineOfNode (node_begun fresh text.now)) }
{
    match text {
        [b's', b'p', b'l', b'i', b't', b'"', rest @ ..] => split(rest, fresh),
        [b'l', b'e', b'a', b'f', b'"', rest @ ..] => leaf(rest, fresh),
        _ => None,
    }
}

#[inline(always)]
fn split(text: &[u8], fresh: bool) -> Option<TreeNode>
    ensures { IfSome result (IsLineOfNode (node_named fresh (codes "split") text.now)) }
{
    let test = test(text, MOST_FIXTURES, MOST_CLUBS)?;
    Some(TreeNode::Split { test, fresh })
}

#[inline(always)]
fn leaf(text: &[u8], fresh: bool) -> Option<TreeNode>
    ensures { IfSome result (IsLineOfNode (node_named fresh (codes "leaf") text.now)) }
{
    let reason = reason(text)?;
    Some(TreeNode::Refuted { reason, fresh })
}

#[inline(always)]
fn reason(text: &[u8]) -> Option<Reason>
    ensures { IfSome result (IsReasonAtEnd text.now) }
{
    match text {
        [b',', b'"', b't', b'i', b'e', b'"', rest @ ..] => tie(rest),
        [b',', b'"', b'l', b'o', b'w', b'"', rest @ ..] => low(rest),
        [b',', b'"', b'h', b'i', b'g', b'h', b'"', rest @ ..] => high(rest),
        [b',', b'"', b'c', b'o', b'u', b'n', b't', b'"', rest @ ..] => count(rest),
        [
            b',',
            b'"',
            b'w',
            b'i',
            b'n',
            b'd',
            b'o',
            b'w',
            b'"',
            rest @ ..,
        ] => window(rest),
        _ => None,
    }
}

fn tie(text: &[u8]) -> Option<Reason>
    ensures { IfSome result (IsReasonAtEnd (next_named (codes "tie") text.now)) }
{
    if is_all(text, b"]") {
        Some(Reason::Tie)
    } else {
        None
    }
}

fn count(text: &[u8]) -> Option<Reason>
    ensures { IfSome result (IsReasonAtEnd (next_named (codes "count") text.now)) }
{
    if is_all(text, b"]") {
        Some(Reason::Count)
    } else {
        None
    }
}

fn window(text: &[u8]) -> Option<Reason>
    ensures { IfSome result (IsReasonAtEnd (next_named (codes "window") text.now)) }
{
    if is_all(text, b"]") {
        Some(Reason::Window)
    } else {
        None
    }
}

#[inline(always)]
fn low(text: &[u8]) -> Option<Reason>
    ensures { IfSome result (IsReasonAtEnd (next_named (codes "low") text.now)) }
{
    let set = cut_at_end(text)?;
    Some(Reason::Low(set))
}

fn high(text: &[u8]) -> Option<Reason>
    ensures { IfSome result (IsReasonAtEnd (next_named (codes "high") text.now)) }
{
    let set = cut_at_end(text)?;
    Some(Reason::High(set))
}
