//! A refuted side as lines.

ghost use Rattle.std.specs.Prelude.{◌≡◌, ◌<◌, ◌≤◌, ◌+◌, ◌++◌, All, IfOk, OnOk, length};
ghost use Rattle.std.specs.List.{flat_map};
ghost use Rattle.cup_sheet.specs.CupAnswers as sheets;
ghost use Rattle.cup_sheet.specs.Cups.{IsCup};
ghost use Rattle.cup_sheet.specs.CupLimits.{most_cup_clubs};
ghost use Rattle.runners_up.specs.inside.GroupsAsked.{GroupNodes};
ghost use Rattle.runners_up.specs.inside.GroupSurveys.{group_numbers};
ghost use Rattle.cup_rows.specs.inside.GroupTreeLines.{IsNodeWithin};
ghost use Rattle.cup_rows.specs.inside.VerdictLines.{club_trees_from, listed_group_lines};
ghost use Rattle.cup_rows.specs.inside.VerdictLines.{own_tree_lines, refuted_side_lines};
ghost use Rattle.cup_rows.specs.inside.VerdictLines.{refutation_heads, IsListedWithin};
ghost use Rattle.cup_rows.specs.inside.VerdictLines.{IsRefutationWithin};

use crate::tree_lines::{cup_key, push_refutation};
use cup_groups::{
    ClubSeat, GroupStart, group_start, listed_groups, nearer_kind, others_kind, place_kind,
};
use cup_sheet::{Cup, GroupKind, GroupReason};
use cup_text::{CupLine, GroupList};
use depth_search::CaseNode;
use league_core::{Claim, Listing, OutOfMemory};
use runners_up::{EmptyGroup, SideRefutation};
use std::alloc::Global;

/// The lines that refute a side of the club that plays there.
pub(crate) fn refuted_lines(
    alloc: Global,
    cup: &Cup,
    claim: Claim,
    seat: &ClubSeat,
    found: &SideRefutation,
) -> Result<Vec<CupLine>, OutOfMemory>
    requires cup { IsCup cup.now }
    requires within { IsRefutationWithin cup.now claim seat.now found.now }
    ensures { IfOk result (λ lines. lines.items
        ≡ refuted_side_lines cup.now claim seat.now found.now) }
{
    let mut lines = refutation_heads(alloc, cup, claim, found)?;
    push_own(alloc, &mut lines, cup, claim, seat, found)?;
    let listed = &found.listed.as_slice()[..listed_groups(cup, claim)];
    push_listed(alloc, &mut lines, cup, claim, listed)?;
    Ok(lines)
}

// The key on which the side turns, and the groups that are listed.
fn refutation_heads(
    alloc: Global,
    cup: &Cup,
    claim: Claim,
    found: &SideRefutation,
) -> Result<Vec<CupLine>, OutOfMemory>
    requires cup { IsCup cup.now }
    requires enough { sheets.listed_groups cup.now claim ≤ length found.now.listed.items }
    ensures { IfOk result (λ lines. lines.items ≡ refutation_heads cup.now claim found.now) }
{
    let mut lines = Vec::new(alloc);
    lines.push(CupLine::KeyLine(cup_key(alloc, &found.key)?))?;
    let count = listed_groups(cup, claim);
    let numbers = numbers_of(alloc, &found.listed.as_slice()[..count])?;
    lines.push(CupLine::Groups(GroupList {
        list: Listing::from_vec(numbers),
    }))?;
    Ok(lines)
}

fn numbers_of(alloc: Global, listed: &[EmptyGroup]) -> Result<Vec<u8>, OutOfMemory>
    ensures { IfOk result (λ numbers. numbers.items ≡ group_numbers listed.now) }
{
    let mut numbers = Vec::new(alloc);
    for group in listed {
        numbers.push(group.group)?;
    }
    Ok(numbers)
}

// The trees about the club itself.
fn push_own(
    alloc: Global,
    lines: &mut Vec<CupLine>,
    cup: &Cup,
    claim: Claim,
    seat: &ClubSeat,
    found: &SideRefutation,
) -> Result<(), OutOfMemory>
    requires cup { IsCup cup.now }
    requires within { IsRefutationWithin cup.now claim seat.now found.now }
    ensures { OnOk result (lines.new.items
        ≡ lines.old.items ++ own_tree_lines cup.now claim seat.now found.now) }
{
    let start = group_start(cup, seat.group);
    let place = place_kind(claim);
    push_refutation(alloc, lines, start, place, seat.own, found.place.as_slice())?;
    let nearer = nearer_kind(claim);
    push_refutation(
        alloc,
        lines,
        start,
        nearer,
        seat.own,
        found.nearer.as_slice(),
    )
}

// The trees about the clubs of the listed groups.
fn push_listed(
    alloc: Global,
    lines: &mut Vec<CupLine>,
    cup: &Cup,
    claim: Claim,
    listed: &[EmptyGroup],
) -> Result<(), OutOfMemory>
    requires cup { IsCup cup.now }
    requires within { All (IsListedWithin cup.now) listed.now }
    ensures { OnOk result (lines.new.items
        ≡ lines.old.items ++ flat_map (listed_group_lines cup.now claim) listed.now) }
{
    for group in listed {
        push_listed_group(alloc, lines, cup, claim, group)?;
    }
    Ok(())
}

fn push_listed_group(
    alloc: Global,
    lines: &mut Vec<CupLine>,
    cup: &Cup,
    claim: Claim,
    group: &EmptyGroup,
) -> Result<(), OutOfMemory>
    requires cup { IsCup cup.now }
    requires within { IsListedWithin cup.now group.now }
    ensures { OnOk result (lines.new.items
        ≡ lines.old.items ++ listed_group_lines cup.now claim group.now) }
{
    let start = group_start(cup, group.group);
    push_club_trees(
        alloc,
        lines,
        start,
        others_kind(claim),
        group.trees.as_slice(),
    )
}

// A tree for each club of a group, by their numbers there.
fn push_club_trees(
    alloc: Global,
    lines: &mut Vec<CupLine>,
    start: GroupStart,
    kind: GroupKind,
    trees: &[Vec<CaseNode<GroupReason>>],
) -> Result<(), OutOfMemory>
    requires clubs { start.club + length trees.now ≤ most_cup_clubs }
    requires trees { All (λ (nodes : GroupNodes). All (IsNodeWithin start) nodes.items) trees.now }
    ensures { OnOk result (lines.new.items
        ≡ lines.old.items ++ club_trees_from start kind 0 trees.now) }
{
    for club in 0..trees.len() {
        let nodes = trees[club].as_slice();
        push_refutation(alloc, lines, start, kind, club as u8, nodes)?;
    }
    Ok(())
}
