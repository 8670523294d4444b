//! Looks at the nodes of an arena, and a write of one.

ghost use Rattle.std.specs.Prelude.{◌≡◌, ◌<◌, ◌≤◌, ◌+◌, ◌^◌, ℕ, [], ◌∷◌, length, slice_index};
ghost use Rattle.std.specs.Prelude.{slice_index_or, slice_set, if◌then◌else◌};
ghost use Rattle.std.specs.List.{insert, remove};
ghost use Rattle.tree_arena.specs.declared.node.Node.{Node};
ghost use Rattle.tree_arena.specs.inside.Arena.{with_kind, IsListed, marks, lent_mark, number_mark};
ghost use Rattle.tree_arena.specs.inside.Arena.{total, IsLeafAt, open_mark, times_in};
ghost use Rattle.tree_arena.specs.inside.Arena.{opens_among, IsLastOpen};
ghost use Rattle.tree_arena.specs.inside.Order.{replaced};

use crate::node::{Kind, Node};
use league_core::RoomyList;

/// Something else stands in a node.
pub fn write(nodes: &mut RoomyList<Node>, leaf: u32, kind: Kind)
    requires { leaf < length nodes.old.items }
    ensures room { nodes.new.room ≡ nodes.old.room }
    ensures items { (default : Node) → nodes.new.items
        ≡ slice_set nodes.old.items leaf
        (with_kind kind (slice_index_or nodes.old.items leaf default)) }
{
    let node = nodes.as_slice()[leaf as usize];
    let _old = nodes.replace(leaf as usize, Node { kind, ..node });
}

fn is_lent_under(kind: Kind, number: u64) -> bool
    ensures { number_mark number kind ≡ (if result then 1 else 0) }
{
    match kind {
        Kind::Lent(other) => other == number,
        Kind::Open | Kind::Refuted(..) | Kind::Split(..) => false,
    }
}

/// If the list of lent leaves has the one that is lent under the number, the last one first.
pub fn find(nodes: &[Node], lent: &[u32], number: u64) -> usize
    requires listed { IsListed (marks lent_mark nodes.now) lent.now }
    requires once { total (marks (number_mark number) nodes.now) ≡ 1 }
    ensures { IsLeafAt number nodes.now lent.now result (slice_index lent.now result) }
{
    let mut place = lent.len();
    while place > 0 {
        place -= 1;
        let node = &nodes[lent[place] as usize];
        if is_lent_under(node.kind, number) {
            return place;
        }
    }
    unreachable!()
}

fn is_open(kind: Kind) -> bool
    ensures { open_mark kind ≡ (if result then 1 else 0) }
{
    match kind {
        Kind::Open => true,
        Kind::Lent(_) | Kind::Refuted(..) | Kind::Split(..) => false,
    }
}

/// Where the last open leaf stands in a list of leaves, one of which is open.
pub fn last_open(nodes: &[Node], list: &[u32]) -> usize
    requires within { (place : ℕ) → place < length list.now
        → slice_index_or list.now place 0 < length nodes.now }
    requires some { 0 < opens_among nodes.now list.now }
    ensures { IsLastOpen nodes.now list.now result }
{
    let mut place = list.len();
    while place > 0 {
        place -= 1;
        let node = &nodes[list[place] as usize];
        if is_open(node.kind) {
            return place;
        }
    }
    unreachable!()
}

// Where a leaf stands in a list that has it, the last place first.
fn place_of(list: &[u32], leaf: u32) -> usize
    requires some { 1 ≤ times_in leaf list.now }
    ensures in_range { result < length list.now }
    ensures is { slice_index_or list.now result 0 ≡ leaf }
{
    let mut place = list.len();
    while place > 0 {
        place -= 1;
        if list[place] == leaf {
            return place;
        }
    }
    unreachable!()
}

/// Takes the number off a place of a list. The last one comes off without a move of others.
#[tactic(auto, using(crate::proofs::EndLemmas::taken_last, crate::proofs::EndLemmas::last_there))]
pub fn take_at(list: &mut RoomyList<u32>, place: usize) -> u32
    requires in_range { place < length list.old.items }
    ensures item { result ≡ slice_index_or list.old.items place result }
    ensures items { list.new.items ≡ remove list.old.items place }
    ensures room { list.new.room ≡ list.old.room + 1 }
{
    if list.len() - place == 1 {
        list.pop()
    } else {
        list.remove(place)
    }
}

// Puts a number at a place of a list. At the end it comes without a move of others.
#[tactic(auto, using(crate::proofs::EndLemmas::put_last))]
fn put_at(list: &mut RoomyList<u32>, place: usize, number: u32)
    requires room { 0 < list.old.room }
    requires in_range { place ≤ length list.old.items }
    ensures items { list.new.items ≡ insert list.old.items place number }
    ensures room { list.new.room + 1 ≡ list.old.room }
{
    if place == list.len() {
        list.push(number);
    } else {
        list.insert(place, number);
    }
}

/// Takes a leaf off a list that has it once.
pub fn take_leaf(list: &mut RoomyList<u32>, leaf: u32)
    requires once { times_in leaf list.old.items ≡ 1 }
    ensures items { list.new.items ≡ replaced leaf [] list.old.items }
    ensures room { list.new.room ≡ list.old.room + 1 }
{
    let place = place_of(list.as_slice(), leaf);
    let _leaf = take_at(list, place);
}

/// Puts two numbers that follow one another, the first one last, in place of a leaf in a list that
/// has it once.
pub fn split_leaf(list: &mut RoomyList<u32>, leaf: u32, first: u32)
    requires once { times_in leaf list.old.items ≡ 1 }
    requires room { 0 < list.old.room }
    requires fits { first + 1 < 2 ^ 32 }
    ensures items { list.new.items ≡ replaced leaf ((first + 1) ∷ first ∷ []) list.old.items }
    ensures room { list.new.room + 1 ≡ list.old.room }
{
    let place = place_of(list.as_slice(), leaf);
    let _leaf = list.replace(place, first + 1);
    put_at(list, place + 1, first);
}
