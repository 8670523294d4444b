//! Which line of a cup's proof a JSON value has the form of, form by form.

ghost use Rattle.std.specs.Prelude.{◌≡◌, IfOk};
ghost use Rattle.serde_json.specs.View.{view};
ghost use Rattle.cup_sheet.specs.GroupQuestions.{is_of_place};
ghost use Rattle.cup_text.specs.CupForms as forms;
ghost use Rattle.cup_text.specs.CupForms.{cup_finish_in, cup_line_named, cup_line_of_value};
ghost use Rattle.cup_text.specs.CupForms.{cup_lots_in, cup_node_named, cup_score_in, groups_in};
ghost use Rattle.cup_text.specs.CupForms.{group_spent_in, group_spent_of};
ghost use Rattle.cup_text.specs.CupForms.{group_tree_in, key_line_in};

use crate::cup_line::{CupLine, GroupList};
use crate::lists::{key, rising};
use crate::reason::leaf;
use cert_text::places::{claim, club, clubs, ends, fixture, number, word};
use cert_text::{ClubList, test_below};
use cup_sheet::GroupKind;
use league_core::limits::MOST_GOALS;
use league_core::{Listing, OutOfMemory, Score};
use serde_json::Value;
use std::alloc::Global;

const MOST_CUP_CLUBS: u8 = 72;

const MOST_CUP_FIXTURES: u16 = 720;

const MOST_GROUPS: u8 = 12;

/// The line that the value has the form of; `None` if it has none of the forms.
pub fn line_of(alloc: Global, value: &Value) -> Result<Option<CupLine>, OutOfMemory>
    ensures { IfOk result (λ found. found ≡ cup_line_of_value (view value.now)) }
{
    match word(value, 0) {
        Some(name) => named_line(alloc, value, name),
        None => Ok(None),
    }
}

// The line whose first word this is.
fn named_line(alloc: Global, value: &Value, name: &str) -> Result<Option<CupLine>, OutOfMemory>
    ensures { IfOk result (λ found. found ≡ cup_line_named name.now (view value.now)) }
{
    if name == "finish" {
        Ok(finish_head(value))
    } else if name == "score" {
        Ok(score_line(value))
    } else if name == "lots" {
        lots_line(alloc, value)
    } else if name == "group_spent" {
        spent_head(alloc, value)
    } else if name == "group_tree" {
        Ok(tree_head(value))
    } else if name == "key" {
        key_line(alloc, value)
    } else if name == "groups" {
        groups_line(alloc, value)
    } else {
        named_node(alloc, value, name)
    }
}

fn finish_head(value: &Value) -> Option<CupLine>
    ensures { result ≡ cup_finish_in (view value.now) }
{
    if ends(value, 2) {
        Some(CupLine::Finish(claim(value, 1)?))
    } else {
        None
    }
}

fn score_line(value: &Value) -> Option<CupLine>
    ensures { result ≡ cup_score_in (view value.now) }
{
    if ends(value, 4) {
        let fixture = fixture(value, 1, MOST_CUP_FIXTURES)?;
        let home = number(value, 2, 0, u64::from(MOST_GOALS))? as u8;
        let away = number(value, 3, 0, u64::from(MOST_GOALS))? as u8;
        let score = Score { home, away };
        Some(CupLine::Score { fixture, score })
    } else {
        None
    }
}

fn lots_line(alloc: Global, value: &Value) -> Result<Option<CupLine>, OutOfMemory>
    ensures { IfOk result (λ found. found ≡ cup_lots_in (view value.now)) }
{
    if !ends(value, 2) {
        return Ok(None);
    }
    match clubs(alloc, value, 1, MOST_CUP_CLUBS)? {
        Some(list) => Ok(Some(CupLine::Lots(ClubList {
            list: Listing::from_vec(list),
        }))),
        None => Ok(None),
    }
}

// The kind of a question about a group, at the second place.
fn kind(value: &Value) -> Option<GroupKind>
    ensures { result ≡ forms.kind_in (view value.now) }
{
    kind_named(word(value, 1)?)
}

fn kind_named(name: &str) -> Option<GroupKind>
    ensures { result ≡ forms.kind_named name.now }
{
    if name == "top" {
        Some(GroupKind::Top)
    } else if name == "below" {
        Some(GroupKind::Below)
    } else if name == "second_less" {
        Some(GroupKind::SecondLess)
    } else if name == "second_at_least" {
        Some(GroupKind::SecondAtLeast)
    } else if name == "second_more" {
        Some(GroupKind::SecondMore)
    } else if name == "second_at_most" {
        Some(GroupKind::SecondAtMost)
    } else {
        None
    }
}

// The head of a tree on which the budget was spent.
fn spent_head(alloc: Global, value: &Value) -> Result<Option<CupLine>, OutOfMemory>
    ensures { IfOk result (λ found. found ≡ group_spent_in (view value.now)) }
{
    match (kind(value), club(value, 2, MOST_CUP_CLUBS)) {
        (Some(kind), Some(club)) => spent_of(alloc, value, kind, club),
        _ => Ok(None),
    }
}

fn spent_of(
    alloc: Global,
    value: &Value,
    kind: GroupKind,
    club: u8,
) -> Result<Option<CupLine>, OutOfMemory>
    ensures { IfOk result (λ found. found ≡ group_spent_of kind club (view value.now)) }
{
    if is_of_place(kind) {
        return Ok(place_spent(value, kind, club));
    }
    if !ends(value, 4) {
        return Ok(None);
    }
    match key(alloc, value, 3)? {
        Some(key) => Ok(Some(CupLine::Spent {
            kind,
            club,
            key: Some(key),
        })),
        None => Ok(None),
    }
}

// Of a question about a place alone, which has no key.
fn place_spent(value: &Value, kind: GroupKind, club: u8) -> Option<CupLine>
    ensures { result ≡ forms.place_spent_of kind club (view value.now) }
{
    if ends(value, 3) {
        Some(CupLine::Spent {
            kind,
            club,
            key: None,
        })
    } else {
        None
    }
}

fn is_of_place(kind: GroupKind) -> bool
    ensures { result ≡ is_of_place kind }
{
    matches!(kind, GroupKind::Top | GroupKind::Below)
}

// The head of a refutation.
fn tree_head(value: &Value) -> Option<CupLine>
    ensures { result ≡ group_tree_in (view value.now) }
{
    if ends(value, 3) {
        let kind = kind(value)?;
        let club = club(value, 2, MOST_CUP_CLUBS)?;
        Some(CupLine::Tree { kind, club })
    } else {
        None
    }
}

fn key_line(alloc: Global, value: &Value) -> Result<Option<CupLine>, OutOfMemory>
    ensures { IfOk result (λ found. found ≡ key_line_in (view value.now)) }
{
    if ends(value, 2) {
        Ok(key(alloc, value, 1)?.map(CupLine::KeyLine))
    } else {
        Ok(None)
    }
}

fn groups_line(alloc: Global, value: &Value) -> Result<Option<CupLine>, OutOfMemory>
    ensures { IfOk result (λ found. found ≡ groups_in (view value.now)) }
{
    if !ends(value, 2) {
        return Ok(None);
    }
    match rising(alloc, value, 1, MOST_GROUPS)? {
        Some(list) => Ok(Some(CupLine::Groups(GroupList {
            list: Listing::from_vec(list),
        }))),
        None => Ok(None),
    }
}

// A node of a tree, by the first word of its line.
fn named_node(alloc: Global, value: &Value, name: &str) -> Result<Option<CupLine>, OutOfMemory>
    ensures { IfOk result (λ found. found ≡ cup_node_named name.now (view value.now)) }
{
    if name == "split" {
        Ok(test_below(value, MOST_CUP_FIXTURES, MOST_CUP_CLUBS).map(CupLine::Split))
    } else if name == "new_split" {
        Ok(test_below(value, MOST_CUP_FIXTURES, MOST_CUP_CLUBS).map(CupLine::NewSplit))
    } else if name == "leaf" {
        Ok(leaf(alloc, value)?.map(CupLine::Leaf))
    } else if name == "new_leaf" {
        Ok(leaf(alloc, value)?.map(CupLine::NewLeaf))
    } else if name == "open" && ends(value, 1) {
        Ok(Some(CupLine::OpenLeaf))
    } else {
        Ok(None)
    }
}
