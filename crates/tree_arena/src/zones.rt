//! The zones of a tree's leaves, from the list of its nodes.

ghost use Rattle.std.specs.Prelude.{◌≡◌, ◌≤◌, ◌++◌, length, reverse, IsTrue, IfOk};
ghost use Rattle.std.specs.Option.{is_some};
ghost use Rattle.league_core.specs.search.Trees.{zones_of};
ghost use Rattle.league_core.specs.search.TreeLists.{tree_of, tree_or_leaf};
ghost use Rattle.tree_arena.specs.inside.Calls.{literals_of};
ghost use Rattle.tree_arena.specs.inside.Steps.{zone_of_part, steps_after, zones_at};

use crate::shorten::shorten;
use league_core::{Listing, Literal, OutOfMemory, TreeNode, Zone};
use std::alloc::Global;

/// A part of the tree that is still to come: in the zone of so many literals of the way and one
/// more, if there is one.
#[derive(Clone, Copy)]
pub struct Step {
    pub depth: usize,
    pub literal: Option<Literal>,
}

/// The zones of the leaves of the tree that has the list, in one walk over it.
pub fn list_zones(alloc: Global, list: &[TreeNode]) -> Result<Vec<Zone>, OutOfMemory>
    requires { IsTrue (is_some (tree_of list.now)) }
    ensures { IfOk result
        (λ zones. literals_of zones.items ≡ zones_of (tree_or_leaf (tree_of list.now))) }
{
    let mut found = Vec::new(alloc);
    let mut zone_box = Listing::new(alloc);
    let mut steps = Vec::new(alloc);
    let literal = None;
    steps.push(Step { depth: 0, literal })?;
    for node in list {
        let Some(step) = steps.pop() else {
            unreachable!()
        };
        go_to(&mut zone_box, step)?;
        take_node(alloc, *node, &zone_box, &mut steps, &mut found)?;
    }
    Ok(found)
}

fn go_to(zone_box: &mut Listing<Literal>, step: Step) -> Result<(), OutOfMemory>
    requires { step.depth ≤ length zone_box.old }
    ensures { IfOk result (λ _. zone_box.new ≡ zone_of_part zone_box.old step.depth step.literal) }
{
    shorten(zone_box, step.depth);
    if let Some(literal) = step.literal {
        zone_box.push(literal)?;
    }
    Ok(())
}

fn take_node(
    alloc: Global,
    node: TreeNode,
    zone_box: &Listing<Literal>,
    steps: &mut Vec<Step>,
    found: &mut Vec<Zone>,
) -> Result<(), OutOfMemory>
    ensures steps { IfOk result (λ _. reverse steps.new.items
        ≡ steps_after node (length zone_box.now) (reverse steps.old.items)) }
    ensures found { IfOk result (λ _. literals_of found.new.items
        ≡ literals_of found.old.items ++ zones_at node zone_box.now) }
{
    if let TreeNode::Split { test, .. } = node {
        let depth = zone_box.len();
        let literal = Some(Literal { test, yes: false });
        steps.push(Step { depth, literal })?;
        let literal = Some(Literal { test, yes: true });
        steps.push(Step { depth, literal })?;
    } else {
        let literals = zone_box.copy(alloc)?;
        found.push(Zone { literals })?;
    }
    Ok(())
}
