//! The reasons of leaves: which reason stands from a place of a line on.

ghost use Rattle.std.specs.Prelude.{◌≡◌, ◌≤◌, IfOk};
ghost use Rattle.serde_json.specs.View.{view};
ghost use Rattle.cup_text.specs.CupForms.{bare_cup_reason_named, by_key_in, cup_cut_from};
ghost use Rattle.cup_text.specs.CupForms.{cup_leaf_in, cup_leaf_named, cup_reason_from};
ghost use Rattle.cup_text.specs.CupForms.{cup_reason_named};

use crate::cup_line::{CupLeaf, CupReason};
use crate::lists::rising;
use cert_text::ClubList;
use cert_text::places::{ends, word};
use league_core::{Listing, OutOfMemory};
use serde_json::Value;
use std::alloc::Global;

const MOST_CUP_CLUBS: u8 = 72;

/// The reason of a leaf, in the second place of its line and after it.
pub fn leaf(alloc: Global, value: &Value) -> Result<Option<CupLeaf>, OutOfMemory>
    ensures { IfOk result (λ found. found ≡ cup_leaf_in (view value.now)) }
{
    match word(value, 1) {
        Some(name) => named_leaf(alloc, value, name),
        None => Ok(None),
    }
}

fn named_leaf(alloc: Global, value: &Value, name: &str) -> Result<Option<CupLeaf>, OutOfMemory>
    ensures { IfOk result (λ found. found ≡ cup_leaf_named name.now (view value.now)) }
{
    if name == "in" {
        Ok(reason_from(alloc, value, 2)?.map(CupLeaf::In))
    } else if name == "out" {
        Ok(reason_from(alloc, value, 2)?.map(CupLeaf::Out))
    } else if name == "key" {
        Ok(by_key(value))
    } else {
        Ok(named_reason(alloc, value, 1, name)?.map(CupLeaf::Plain))
    }
}

fn by_key(value: &Value) -> Option<CupLeaf>
    ensures { result ≡ by_key_in (view value.now) }
{
    if ends(value, 2) {
        Some(CupLeaf::ByKey)
    } else {
        None
    }
}

// The reason whose name stands at the place.
fn reason_from(alloc: Global, value: &Value, place: usize) -> Result<Option<CupReason>, OutOfMemory>
    requires { place ≤ 2 }
    ensures { IfOk result (λ found. found ≡ cup_reason_from place (view value.now)) }
{
    match word(value, place) {
        Some(name) => named_reason(alloc, value, place, name),
        None => Ok(None),
    }
}

fn named_reason(
    alloc: Global,
    value: &Value,
    place: usize,
    name: &str,
) -> Result<Option<CupReason>, OutOfMemory>
    requires { place ≤ 2 }
    ensures { IfOk result (λ found. found ≡ cup_reason_named place name.now (view value.now)) }
{
    if name == "low" {
        Ok(cut(alloc, value, place)?.map(CupReason::Low))
    } else if name == "high" {
        Ok(cut(alloc, value, place)?.map(CupReason::High))
    } else {
        Ok(bare_reason(value, place, name))
    }
}

// The clubs of a cut, in the last place, after its name.
fn cut(alloc: Global, value: &Value, place: usize) -> Result<Option<ClubList>, OutOfMemory>
    requires { place ≤ 2 }
    ensures { IfOk result (λ found. found ≡ cup_cut_from place (view value.now)) }
{
    if !ends(value, place + 2) {
        return Ok(None);
    }
    match rising(alloc, value, place + 1, MOST_CUP_CLUBS)? {
        Some(list) => Ok(Some(ClubList {
            list: Listing::from_vec(list),
        })),
        None => Ok(None),
    }
}

// A reason that is one word.
fn bare_reason(value: &Value, place: usize, name: &str) -> Option<CupReason>
    requires { place ≤ 2 }
    ensures { result ≡ bare_cup_reason_named place name.now (view value.now) }
{
    if !ends(value, place + 1) {
        None
    } else if name == "count" {
        Some(CupReason::Count)
    } else if name == "window" {
        Some(CupReason::Window)
    } else if name == "tie" {
        Some(CupReason::Tie)
    } else {
        None
    }
}
