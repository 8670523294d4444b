//! Splits by the score of a fixture, which a result of the fixture decides.

use crate::plain::{PlainPool, same};
use league_core::{Event, Score, Test, TreeNode};
use sample_leagues::Draws;
use std::alloc::Global;
use std::test::Fail;

// The fixture by whose score a node is split; none for a leaf, or if a rival splits it.
fn fixture_of(node: &TreeNode) -> Option<u16> {
    match node {
        TreeNode::Split { test, .. } => match test {
            Test::Home { fixture }
            | Test::Draw { fixture }
            | Test::HomeMost { fixture, .. }
            | Test::AwayMost { fixture, .. } => Some(*fixture),
            Test::Rival { .. } => None,
        },
        TreeNode::Open | TreeNode::Lent(_) | TreeNode::Refuted { .. } => None,
    }
}

fn push_fixtures(nodes: &[TreeNode], found: &mut Vec<u16>) -> Result<(), Fail> {
    for node in nodes {
        if let Some(fixture) = fixture_of(node) {
            found.push(fixture).map_err(|_| "no memory")?;
        }
    }
    Ok(())
}

/// The fixtures by whose scores the trees of a pool are split, one for each split.
pub fn split_fixtures(alloc: Global, plain: &PlainPool) -> Result<Vec<u16>, Fail> {
    let mut found = Vec::new(alloc);
    for seat in &plain.seats {
        push_fixtures(seat.tree.nodes()?.as_slice(), &mut found)?;
    }
    Ok(found)
}

/// A result of a fixture by which some tree is split; none if there is no such split.
pub fn drawn_result(draws: &mut Draws, split: &[u16]) -> Option<Event> {
    if split.is_empty() || 255 < split.len() {
        return None;
    }
    let place = draws.below(split.len() as u8);
    let score = Score {
        home: draws.below(3),
        away: draws.below(3),
    };
    Some(Event::Set {
        fixture: split[place as usize],
        score,
    })
}

fn times_split(alloc: Global, plain: &PlainPool, fixture: u16) -> Result<u32, Fail> {
    let mut times = 0u32;
    for other in split_fixtures(alloc, plain)?.as_slice() {
        if *other == fixture {
            times = times.saturating_add(1);
        }
    }
    Ok(times)
}

/// How many splits of the trees an event decides: those by the fixture of a result.
pub fn decided_by(alloc: Global, plain: &PlainPool, event: &Event) -> Result<u32, Fail> {
    match event {
        Event::Set { fixture, .. } => times_split(alloc, plain, *fixture),
        Event::Clear { .. } | Event::Deduct { .. } => Ok(0),
    }
}

/// No tree is split by what the event has decided.
pub fn are_gone(alloc: Global, plain: &PlainPool, event: &Event) -> Result<(), Fail> {
    same(
        decided_by(alloc, plain, event)? == 0,
        "a decided split is left",
    )
}
