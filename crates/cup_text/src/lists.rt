//! The lists of a line: clubs of a cut, groups, parts of a key.

ghost use Rattle.std.specs.Prelude.{◌≡◌, IfOk, option_map};
ghost use Rattle.serde_json.specs.View.{view, items_view};
ghost use Rattle.cup_text.specs.CupForms.{cup_key_at, is_rising, is_rising_from, key_list};
ghost use Rattle.cup_text.specs.CupForms.{listed_part, listed_parts, rising_at, rising_list};

use crate::cup_line::CupKey;
use cert_text::places::clubs;
use league_core::{Listing, OutOfMemory};
use serde_json::Value;
use std::alloc::Global;

/// The list at the place of numbers that rise, each one of so many, by their numbers from 0.
pub fn rising(
    alloc: Global,
    value: &Value,
    place: usize,
    most: u8,
) -> Result<Option<Vec<u8>>, OutOfMemory>
    ensures { IfOk result
        (λ found. option_map (λ list. list.items) found ≡ rising_at most place (view value.now)) }
{
    match clubs(alloc, value, place, most)? {
        Some(list) => Ok(if_rising(list)),
        None => Ok(None),
    }
}

fn if_rising(list: Vec<u8>) -> Option<Vec<u8>>
    ensures { option_map (λ kept. kept.items) result ≡ rising_list list.items }
{
    if is_rising(list.as_slice()) {
        Some(list)
    } else {
        None
    }
}

// There is a number, and each is above those before it.
fn is_rising(list: &[u8]) -> bool
    ensures { result ≡ is_rising list.now }
{
    !list.is_empty() && rises(list)
}

fn rises(list: &[u8]) -> bool
    ensures { result ≡ is_rising_from 0 list.now }
{
    let mut least = 0_u16;
    for number in list {
        if u16::from(*number) < least {
            return false;
        }
        least = u16::from(*number) + 1;
    }
    true
}

/// The key at the place.
pub fn key(alloc: Global, value: &Value, place: usize) -> Result<Option<CupKey>, OutOfMemory>
    ensures { IfOk result (λ found. found ≡ cup_key_at place (view value.now)) }
{
    match value.get(place).and_then(Value::as_array) {
        Some(items) => Ok(key_of(parts_of(alloc, items.as_slice())?)),
        None => Ok(None),
    }
}

fn key_of(parts: Option<Vec<i32>>) -> Option<CupKey>
    ensures { result ≡ key_list (option_map (λ list. list.items) parts) }
{
    let parts = parts?;
    if parts.len() == 7 {
        Some(CupKey {
            parts: Listing::from_vec(parts),
        })
    } else {
        None
    }
}

// The parts of a list, if each of its items is one.
fn parts_of(alloc: Global, items: &[Value]) -> Result<Option<Vec<i32>>, OutOfMemory>
    ensures { IfOk result
        (λ found. option_map (λ parts. parts.items) found ≡ listed_parts (items_view items.now)) }
{
    let mut parts = Vec::new(alloc);
    for item in items {
        match part_of(item) {
            Some(part) => parts.push(part)?,
            None => return Ok(None),
        }
    }
    Ok(Some(parts))
}

fn part_of(value: &Value) -> Option<i32>
    ensures { result ≡ listed_part (view value.now) }
{
    let found = value.as_i64()?;
    if -100_000 <= found && found <= 100_000 {
        Some(found as i32)
    } else {
        None
    }
}
