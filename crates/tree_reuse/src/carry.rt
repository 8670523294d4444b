//! A tree, carried over to another season one node after the other.

ghost use Rattle.std.specs.Prelude.{◌≡◌, ◌<◌, ◌≤◌, IsTrue, [], ◌∷◌, ◌++◌, length, reverse, IfOk};
ghost use Rattle.std.specs.Prelude.{OnOk};
ghost use Rattle.league_core.specs.search.Zones.{is_test_of};
ghost use Rattle.league_core.specs.search.Reasons.{has_reason};
ghost use Rattle.league_core.specs.search.Trees.{preorder};
ghost use Rattle.tree_reuse.specs.Retargets.{halves_in, leaf_kept, retargeted_from};
ghost use Rattle.tree_arena.specs.inside.Steps.{from_next, zone_of_part};
ghost use Rattle.tree_arena.specs.inside.Calls.{AreTestsOf, IsNodeOf};
ghost use Rattle.tree_reuse.specs.inside.Carrying.{half_part, part_alone, halves_kept, split_kept};
ghost use Rattle.tree_reuse.specs.inside.Carrying.{parts_after, nodes_kept, IsLiteralOf};
ghost use Rattle.tree_reuse.specs.inside.Carrying.{IsPartBelow, TakesPart};

use crate::box_moves::back_to;
use crate::halves::Halves;
use league_core::{Literal, OutOfMemory, Question, Reason, Test, TreeNode};
use score_box::ZoneBox;
use std::alloc::Global;
use tie_bound::holds;
use tree_arena::{Look, Subtrees, Tree};

/// A part of the tree that is still to come: the number of its first node, in the zone of so many
/// literals of the way and one more, if there is one.
#[derive(Clone, Copy)]
pub struct Part {
    pub at: u32,
    pub depth: usize,
    pub literal: Option<Literal>,
}

// Which halves a split keeps here.
fn halves(zone_box: &ZoneBox, test: Test) -> Halves
    requires { IsTrue (is_test_of zone_box.now.sheet test) }
    ensures { result ≡ halves_in zone_box.now.sheet zone_box.now.season zone_box.now.zone test }
{
    if let Test::Rival { .. } = test {
        return Halves::Both;
    }
    let with_finish = zone_box.halves_with_finish(test);
    if !with_finish.yes {
        Halves::NoAlone
    } else if with_finish.no {
        Halves::Both
    } else {
        Halves::YesAlone
    }
}

// The yes half of a split comes next, and its no half waits.
fn keep_halves(
    halves: Halves,
    depth: usize,
    test: Test,
    look: &Look,
    parts: &mut Vec<Part>,
) -> Result<Option<Part>, OutOfMemory>
    ensures { IfOk result (λ next. from_next next (reverse parts.new.items)
        ≡ halves_kept halves depth test look.now (reverse parts.old.items)) }
{
    let (yes_half, no_half) = (look.yes_half, look.no_half);
    Ok(Some(match halves {
        Halves::Both => {
            parts.push(half(no_half, depth, test, false))?;
            half(yes_half, depth, test, true)
        }
        Halves::YesAlone => alone(yes_half, depth),
        Halves::NoAlone => alone(no_half, depth),
    }))
}

fn half(at: u32, depth: usize, test: Test, yes: bool) -> Part
    ensures { result ≡ half_part at depth test yes }
{
    let literal = Some(Literal { test, yes });
    Part { at, depth, literal }
}

fn alone(at: u32, depth: usize) -> Part
    ensures { result ≡ part_alone at depth }
{
    let literal = None;
    Part { at, depth, literal }
}

fn keep_split(
    zone_box: &ZoneBox,
    test: Test,
    look: &Look,
    parts: &mut Vec<Part>,
    found: &mut Vec<TreeNode>,
) -> Result<Option<Part>, OutOfMemory>
    requires { IsTrue (is_test_of zone_box.now.sheet test) }
    ensures parts { IfOk result (λ next. from_next next (reverse parts.new.items)
        ≡ halves_kept (halves_in zone_box.now.sheet zone_box.now.season zone_box.now.zone test)
        (length zone_box.now.zone) test look.now (reverse parts.old.items)) }
    ensures found { IfOk result (λ _. found.new.items ≡ found.old.items
        ++ split_kept (halves_in zone_box.now.sheet zone_box.now.season zone_box.now.zone test)
        test) }
{
    let halves = halves(zone_box, test);
    if let Halves::Both = halves {
        found.push(TreeNode::Split { test, fresh: false })?;
    }
    keep_halves(halves, zone_box.zone().len(), test, look, parts)
}

fn keep_leaf(
    zone_box: &ZoneBox,
    question: &Question,
    reason: Reason,
    found: &mut Vec<TreeNode>,
) -> Result<(), OutOfMemory>
    requires { question.now.club < length zone_box.now.sheet.clubs }
    ensures { IfOk result (λ _. found.new.items ≡ found.old.items
        ++ preorder (leaf_kept
        (has_reason zone_box.now.sheet zone_box.now.season question.now zone_box.now.zone reason)
        reason)) }
{
    let node = if holds(zone_box, question, &reason) {
        TreeNode::Refuted {
            reason,
            fresh: false,
        }
    } else {
        TreeNode::Open
    };
    found.push(node)?;
    Ok(())
}

fn keep_node(
    zone_box: &ZoneBox,
    question: &Question,
    look: &Look,
    parts: &mut Vec<Part>,
    found: &mut Vec<TreeNode>,
) -> Result<Option<Part>, OutOfMemory>
    requires club { question.now.club < length zone_box.now.sheet.clubs }
    requires node { IsNodeOf zone_box.now.sheet look.now.node }
    ensures parts { IfOk result (λ next. from_next next (reverse parts.new.items)
        ≡ parts_after zone_box.now.sheet zone_box.now.season zone_box.now.zone look.now.node
        look.now
        (reverse parts.old.items)) }
    ensures found { IfOk result (λ _. found.new.items ≡ found.old.items
        ++ nodes_kept zone_box.now.sheet zone_box.now.season question.now zone_box.now.zone
        look.now.node) }
{
    match look.node {
        TreeNode::Open | TreeNode::Lent(_) => found.push(TreeNode::Open)?,
        TreeNode::Refuted { reason, .. } => keep_leaf(zone_box, question, reason, found)?,
        TreeNode::Split { test, .. } => return keep_split(zone_box, test, look, parts, found),
    }
    Ok(parts.pop())
}

fn go_to(zone_box: &mut ZoneBox, part: Part) -> Result<(), OutOfMemory>
    requires depth { part.depth ≤ length zone_box.old.zone }
    requires literal { IsLiteralOf zone_box.old.sheet part.literal }
    ensures { IfOk result (λ _. zone_box.new ≡ record zone_box.old
        { zone = zone_of_part zone_box.old.zone part.depth part.literal }) }
{
    back_to(zone_box, part.depth);
    if let Some(literal) = part.literal {
        zone_box.cut(literal)?;
    }
    Ok(())
}

// Takes the first node of a part, and answers the part that comes next.
fn take_part(
    zone_box: &mut ZoneBox,
    question: &Question,
    subtrees: &Subtrees,
    part: Part,
    parts: &mut Vec<Part>,
    found: &mut Vec<TreeNode>,
) -> Result<Option<Part>, OutOfMemory>
    requires club { question.now.club < length zone_box.old.sheet.clubs }
    requires part { IsPartBelow zone_box.old.sheet subtrees.now (length zone_box.old.zone) part }
    ensures { IfOk result (λ next. TakesPart question.now subtrees.now part zone_box.old
        zone_box.new (reverse parts.old.items) (from_next next (reverse parts.new.items))
        found.old.items found.new.items) }
{
    go_to(zone_box, part)?;
    let look = subtrees.look(part.at);
    keep_node(zone_box, question, &look, parts, found)
}

/// The list of what the season of the box leaves of a tree, whatever its length. At most one look
/// at each node: what is below a half that goes is passed over. The box is one without a literal,
/// and so it is again.
pub fn carry(
    alloc: Global,
    zone_box: &mut ZoneBox,
    question: &Question,
    tree: &Tree,
) -> Result<Vec<TreeNode>, OutOfMemory>
    requires root { zone_box.old.zone ≡ [] }
    requires club { question.now.club < length zone_box.old.sheet.clubs }
    requires tests { AreTestsOf zone_box.old.sheet tree.now }
    ensures found { IfOk result (λ found. found.items
        ≡ preorder (retargeted_from zone_box.old.sheet zone_box.old.season question.now []
        tree.now)) }
    ensures same { OnOk result (zone_box.new ≡ zone_box.old) }
{
    let subtrees = tree.subtrees();
    let mut parts = Vec::new(alloc);
    let mut found = Vec::with_capacity(alloc, tree.node_count())?;
    let mut next = Some(alone(0, 0));
    while let Some(part) = next {
        next = take_part(zone_box, question, &subtrees, part, &mut parts, &mut found)?;
    }
    back_to(zone_box, 0);
    Ok(found)
}
