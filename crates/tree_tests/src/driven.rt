//! Both bodies of a tree, driven by one drawn list of calls.

use crate::counts::{lend_next, times_lent};
use league_core::{ClubSet, Reason, Test, Zone};
use reference_programs::{BoxedTree, ZoneTree};
use sample_leagues::Draws;
use std::alloc::Global;
use std::test::Fail;
use tree_arena::Tree;

/// A tree with more nodes gives way to a new one.
const MANY: usize = 500;

/// What comes in place of a lent leaf.
#[derive(Clone, Copy, Debug)]
enum Given {
    Opened,
    Refuted(Reason),
    Split(Test),
}

/// The tree in an arena, the same in boxes, and the numbers that are lent.
#[derive(Drop)]
struct Pair {
    arena: Tree,
    boxed: BoxedTree,
    lent: Vec<u64>,
}

fn begin(alloc: Global) -> Result<Pair, Fail> {
    Ok(Pair {
        arena: Tree::root(alloc)?,
        boxed: BoxedTree::root(alloc)?,
        lent: Vec::new(alloc),
    })
}

fn same(is_same: bool, what: &'static str) -> Result<(), Fail> {
    if is_same { Ok(()) } else { Err(what.into()) }
}

// The arena lends a leaf of its choice, and the boxes lend the same one.
fn lend(pair: &mut Pair, number: u64) -> Result<(), Fail> {
    match lend_next(&mut pair.arena, number)? {
        Some(zone) => {
            boxed_lends(&mut pair.boxed, &zone, number)?;
            pair.lent.push(number)?;
            Ok(())
        }
        None => same(!pair.boxed.has_open(), "no leaf was lent, and one is open"),
    }
}

fn boxed_lends(boxed: &mut BoxedTree, zone: &Zone, number: u64) -> Result<(), Fail> {
    if boxed.is_lent(number) {
        return Err("the number is lent".into());
    }
    let is_open = boxed.lend_there(zone.literals.as_slice(), number)?;
    same(is_open, "a leaf was lent that is not open")
}

// The leaf of a number comes back to both.
fn put(pair: &mut Pair, number: u64, given: Given) -> Result<(), Fail> {
    takes(&mut pair.arena, number, given)?;
    takes(&mut pair.boxed, number, given)
}

fn takes<T: ZoneTree>(tree: &mut T, number: u64, given: Given) -> Result<(), Fail> {
    if times_lent(tree, number)? != 1 {
        return Err("the number is not lent once".into());
    }
    match given {
        Given::Opened => tree.reopen(number),
        Given::Refuted(reason) => tree.refute(number, reason),
        Given::Split(test) => tree.split(number, test),
    }
    Ok(())
}

fn drawn_test(draws: &mut Draws) -> Test {
    let club = draws.below(24);
    let fixture = u16::from(draws.below(200));
    let most = draws.below(20);
    match draws.below(5) {
        0 => Test::Home { fixture },
        1 => Test::Draw { fixture },
        2 => Test::HomeMost { fixture, most },
        3 => Test::AwayMost { fixture, most },
        _ => Test::Rival { club },
    }
}

fn drawn_reason(draws: &mut Draws) -> Reason {
    match draws.below(5) {
        0 => Reason::Count,
        1 => Reason::Window,
        2 => Reason::Low(ClubSet::empty()),
        3 => Reason::High(ClubSet::empty()),
        _ => Reason::Tie,
    }
}

// More often a split than a reason, so that trees grow.
fn drawn_given(draws: &mut Draws) -> Given {
    match draws.below(9) {
        0 | 1 => Given::Opened,
        2 | 3 | 4 => Given::Refuted(drawn_reason(draws)),
        _ => Given::Split(drawn_test(draws)),
    }
}

// One of the numbers that are lent, which is lent no more.
fn drawn_number(draws: &mut Draws, lent: &mut Vec<u64>) -> Option<u64> {
    let count = lent.len();
    if count == 0 || 255 < count {
        return None;
    }
    let place = draws.below(count as u8);
    Some(lent.swap_remove(place as usize))
}

fn open_all(pair: &mut Pair) {
    pair.arena.reopen_all();
    pair.boxed.reopen_all();
    pair.lent.clear();
}

// One call on both.
fn call(draws: &mut Draws, pair: &mut Pair, number: u64) -> Result<(), Fail> {
    match draws.below(40) {
        0 => {
            open_all(pair);
            Ok(())
        }
        1..18 => lend(pair, number),
        _ => match drawn_number(draws, &mut pair.lent) {
            Some(lent) => {
                let given = drawn_given(draws);
                put(pair, lent, given)
            }
            None => lend(pair, number),
        },
    }
}

// Whether both have the same nodes, and the arena counts as many.
fn have_same_nodes(pair: &Pair) -> Result<(bool, bool), Fail> {
    let arena = pair.arena.nodes()?;
    let boxed = pair.boxed.nodes()?;
    Ok((
        arena.as_slice() == boxed.as_slice(),
        pair.arena.node_count() == boxed.len(),
    ))
}

fn are_same_zones(zones: &[Zone], others: &[Zone]) -> bool {
    if zones.len() != others.len() {
        return false;
    }
    for place in 0..zones.len() {
        if zones[place].literals.as_slice() != others[place].literals.as_slice() {
            return false;
        }
    }
    true
}

fn have_same_leaves(pair: &Pair) -> Result<bool, Fail> {
    let arena = pair.arena.leaves()?;
    let boxed = pair.boxed.leaves()?;
    Ok(are_same_zones(arena.as_slice(), boxed.as_slice()))
}

// A look at all that both show.
fn compare(pair: &Pair) -> Result<(), Fail> {
    let (are_same, are_as_many) = have_same_nodes(pair)?;
    same(are_same, "other nodes")?;
    same(are_as_many, "another number of nodes")?;
    same(pair.arena.has_open() == pair.boxed.has_open(), "has_open")?;
    same(
        pair.arena.is_refuted() == pair.boxed.is_refuted(),
        "is_refuted",
    )?;
    same(have_same_leaves(pair)?, "other leaves")
}

// A hundred calls, and a look at all nodes and leaves.
fn call_hundred(draws: &mut Draws, pair: &mut Pair, from: u64) -> Result<(), Fail> {
    for place in 0..100u64 {
        call(draws, pair, from.wrapping_mul(100).wrapping_add(place))?;
    }
    compare(pair)
}

// A new root in place of trees that are large or refuted.
fn renew(alloc: Global, pair: &mut Pair) -> Result<(), Fail> {
    if MANY < pair.arena.node_count() || pair.arena.is_refuted() {
        *pair = begin(alloc)?;
    }
    Ok(())
}

// A hundred times a hundred calls: how many nodes the greatest tree has that was looked at.
fn call_all(alloc: Global, pair: &mut Pair) -> Result<usize, Fail> {
    let mut draws = Draws::new(20);
    let mut most = 0;
    for hundred in 0..100u64 {
        call_hundred(&mut draws, pair, hundred)?;
        most = most.max(pair.arena.node_count());
        renew(alloc, pair)?;
    }
    Ok(most)
}

fn begin_and_call(alloc: Global) -> Result<usize, Fail> {
    let mut pair = begin(alloc)?;
    call_all(alloc, &mut pair)
}

#[test]
fn arena_and_boxed_trees_agree(rt: HostRuntime) -> Result<(), Fail> {
    let most = begin_and_call(rt.alloc())?;
    assert!(rt; MANY < most, "{most}");
    Ok(())
}
