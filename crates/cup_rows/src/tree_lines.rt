//! The trees of a group as lines.

ghost use Rattle.std.specs.Prelude.{◌≡◌, ◌<◌, ◌≤◌, ◌+◌, ◌++◌, All, OnOk, IfOk, map};
ghost use Rattle.cup_sheet.specs.CupLimits.{most_cup_clubs};
ghost use Rattle.cup_rows.specs.inside.GroupTreeLines.{group_tree_lines, refuted_node_line};
ghost use Rattle.cup_rows.specs.inside.GroupTreeLines.{group_spent_lines, spent_node_line};
ghost use Rattle.cup_rows.specs.inside.GroupTreeLines.{cup_key, IsNodeWithin};
ghost use Rattle.cup_text.specs.CupItems.{key_of_question};
ghost use Rattle.club_keys.specs.inside.KeyEnds.{key_parts};

use crate::node_line::{leaf_in_cup, test_in_cup};
use club_keys::ClubKey;
use cup_groups::{GroupStart, KindQuestion};
use cup_sheet::{GroupKind, GroupReason};
use cup_text::{CupKey, CupLine};
use depth_search::CaseNode;
use league_core::{Listing, OutOfMemory};
use std::alloc::Global;

/// Adds the refutation of a question about a club of the group, by its number there, under its
/// head.
pub(crate) fn push_refutation(
    alloc: Global,
    lines: &mut Vec<CupLine>,
    start: GroupStart,
    kind: GroupKind,
    club: u8,
    nodes: &[CaseNode<GroupReason>],
) -> Result<(), OutOfMemory>
    requires head { start.club + club < most_cup_clubs }
    requires nodes { All (IsNodeWithin start) nodes.now }
    ensures { OnOk result (lines.new.items
        ≡ lines.old.items ++ group_tree_lines start kind club nodes.now) }
{
    lines.push(CupLine::Tree {
        kind,
        club: start.club + club,
    })?;
    for node in nodes {
        lines.push(refuted_node_line(alloc, start, node)?)?;
    }
    Ok(())
}

// A node in a refutation.
fn refuted_node_line(
    alloc: Global,
    start: GroupStart,
    node: &CaseNode<GroupReason>,
) -> Result<CupLine, OutOfMemory>
    requires start { start.club ≤ most_cup_clubs }
    requires node { IsNodeWithin start node.now }
    ensures { IfOk result (λ line. line ≡ refuted_node_line start node.now) }
{
    match node {
        CaseNode::Split(test) => Ok(CupLine::Split(test_in_cup(start, *test))),
        CaseNode::Refuted(reason) => Ok(CupLine::Leaf(leaf_in_cup(alloc, start, *reason)?)),
        CaseNode::Open => Ok(CupLine::OpenLeaf),
    }
}

/// Adds a tree on which the budget for a question about the group was spent, all of it new, under
/// its head.
pub(crate) fn push_spent(
    alloc: Global,
    lines: &mut Vec<CupLine>,
    start: GroupStart,
    question: &KindQuestion,
    nodes: &[CaseNode<GroupReason>],
) -> Result<(), OutOfMemory>
    requires head { start.club + question.now.club < most_cup_clubs }
    requires nodes { All (IsNodeWithin start) nodes.now }
    ensures { OnOk result (lines.new.items
        ≡ lines.old.items ++ group_spent_lines start question.now nodes.now) }
{
    lines.push(CupLine::Spent {
        kind: question.kind,
        club: start.club + question.club,
        key: key_of_question(alloc, question)?,
    })?;
    for node in nodes {
        lines.push(spent_node_line(alloc, start, node)?)?;
    }
    Ok(())
}

// A new node in a tree on which a budget was spent.
fn spent_node_line(
    alloc: Global,
    start: GroupStart,
    node: &CaseNode<GroupReason>,
) -> Result<CupLine, OutOfMemory>
    requires start { start.club ≤ most_cup_clubs }
    requires node { IsNodeWithin start node.now }
    ensures { IfOk result (λ line. line ≡ spent_node_line start node.now) }
{
    match node {
        CaseNode::Split(test) => Ok(CupLine::NewSplit(test_in_cup(start, *test))),
        CaseNode::Refuted(reason) => Ok(CupLine::NewLeaf(leaf_in_cup(alloc, start, *reason)?)),
        CaseNode::Open => Ok(CupLine::OpenLeaf),
    }
}

// The key of a question, if its kind has one.
fn key_of_question(alloc: Global, question: &KindQuestion) -> Result<Option<CupKey>, OutOfMemory>
    ensures { IfOk result (λ key. key
        ≡ key_of_question question.now.kind (key_parts question.now.key)) }
{
    match question.kind {
        GroupKind::Top | GroupKind::Below => Ok(None),
        GroupKind::SecondLess
        | GroupKind::SecondAtLeast
        | GroupKind::SecondMore
        | GroupKind::SecondAtMost => Ok(Some(cup_key(alloc, &question.key)?)),
    }
}

/// A key as it is written.
pub(crate) fn cup_key(alloc: Global, key: &ClubKey) -> Result<CupKey, OutOfMemory>
    ensures { IfOk result (λ shown. shown ≡ cup_key key.now) }
{
    let parts = Vec::from_slice(
        alloc,
        &[
            key.points,
            key.difference,
            key.goals,
            key.away_goals,
            key.wins,
            key.away_wins,
            key.by_rank,
        ],
    )?;
    Ok(CupKey {
        parts: Listing::from_vec(parts),
    })
}
