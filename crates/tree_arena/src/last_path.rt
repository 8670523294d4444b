//! The way from the root to a node, made of the way to another one: up to where both meet, and down
//! from there. So the zones of leaves that are lent one after the other cost what they differ in.

ghost use Rattle.std.specs.Prelude.{◌≡◌, ◌<◌, ◌++◌, [], length, reverse, IfOk, OnOk};
ghost use Rattle.tree_arena.specs.inside.Arena.{IsLinked};
ghost use Rattle.tree_arena.specs.inside.LastPaths.{IsStep, LeadsToNode, TakesInHand};

use crate::node::{Kind, Node};
use crate::shorten::shorten;
use league_core::{Listing, Literal, OutOfMemory};

/// Turns the way to the last node into the way to another one, which is the last then; if memory
/// runs out, into the way to the root. `hand` is scratch space.
pub fn move_to(
    nodes: &[Node],
    to: u32,
    last: &mut u32,
    zone_box: &mut Listing<Literal>,
    hand: &mut Listing<Literal>,
) -> Result<(), OutOfMemory>
    requires linked { IsLinked nodes.now }
    requires from { LeadsToNode nodes.now (reverse zone_box.old) last.old }
    requires to { to < length nodes.now }
    ensures leads { LeadsToNode nodes.now (reverse zone_box.new) last.new }
    ensures there { OnOk result (last.new ≡ to) }
{
    match extend_to(nodes, *last, to, zone_box, hand) {
        Ok(()) => {
            *last = to;
            Ok(())
        }
        Err(refused) => {
            shorten(zone_box, 0);
            *last = 0;
            Err(refused)
        }
    }
}

fn extend_to(
    nodes: &[Node],
    from: u32,
    to: u32,
    zone_box: &mut Listing<Literal>,
    hand: &mut Listing<Literal>,
) -> Result<(), OutOfMemory>
    requires linked { IsLinked nodes.now }
    requires from { LeadsToNode nodes.now (reverse zone_box.old) from }
    requires to { to < length nodes.now }
    ensures { IfOk result (λ _. LeadsToNode nodes.now (reverse zone_box.new) to) }
{
    shorten(hand, 0);
    meet(nodes, from, to, zone_box, hand)?;
    go_down(zone_box, hand)
}

// Goes up from both nodes until they meet. The way is that to where they do, and in hand is what
// leads down from there, the last literal first.
fn meet(
    nodes: &[Node],
    from: u32,
    to: u32,
    zone_box: &mut Listing<Literal>,
    hand: &mut Listing<Literal>,
) -> Result<(), OutOfMemory>
    requires linked { IsLinked nodes.now }
    requires from { LeadsToNode nodes.now (reverse zone_box.old) from }
    requires to { to < length nodes.now }
    requires none { hand.old ≡ [] }
    ensures { IfOk result (λ _. LeadsToNode nodes.now (hand.new ++ reverse zone_box.new) to) }
{
    let mut one = from;
    let mut other = to;
    while one != other {
        if one > other {
            one = go_up(nodes, one, zone_box);
        } else {
            other = take_in_hand(nodes, other, hand)?;
        }
    }
    Ok(())
}

// The way to the node's parent.
fn go_up(nodes: &[Node], at: u32, zone_box: &mut Listing<Literal>) -> u32
    requires later { 0 < at }
    requires leads { LeadsToNode nodes.now (reverse zone_box.old) at }
    ensures above { result < at }
    ensures leads { LeadsToNode nodes.now (reverse zone_box.new) result }
{
    zone_box.pop();
    nodes[at as usize].parent
}

// The literal that leads to a node comes in hand; its parent.
fn take_in_hand(nodes: &[Node], at: u32, hand: &mut Listing<Literal>) -> Result<u32, OutOfMemory>
    requires linked { IsLinked nodes.now }
    requires later { 0 < at }
    requires within { at < length nodes.now }
    ensures { IfOk result (TakesInHand nodes.now at hand.old hand.new) }
{
    let (literal, parent) = last_step(nodes, at);
    hand.push(literal)?;
    Ok(parent)
}

fn last_step(nodes: &[Node], at: u32) -> (Literal, u32)
    requires linked { IsLinked nodes.now }
    requires later { 0 < at }
    requires within { at < length nodes.now }
    ensures { IsStep nodes.now result.0 at result.1 }
{
    let node = nodes[at as usize];
    let Kind::Split(test, ..) = nodes[node.parent as usize].kind else {
        unreachable!()
    };
    let yes = node.yes;
    (Literal { test, yes }, node.parent)
}

// Goes down by what is in hand.
fn go_down(zone_box: &mut Listing<Literal>, hand: &mut Listing<Literal>) -> Result<(), OutOfMemory>
    ensures { IfOk result (λ _. reverse zone_box.new ≡ hand.old ++ reverse zone_box.old) }
{
    while let Some(literal) = hand.pop() {
        zone_box.push(literal)?;
    }
    Ok(())
}
