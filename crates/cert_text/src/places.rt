//! What stands at the places of a JSON array, from 0 on, if it is what a form has there.

ghost use Rattle.std.specs.Prelude.{◌≡◌, ◌<◌, IfOk, Some, None, option_map, map, ◌∷◌, []};
ghost use Rattle.serde_json.specs.View.{view, items_view};
ghost use Rattle.cert_text.specs.Places.{is_end_at, word_at, integer_at, numbered_at};
ghost use Rattle.cert_text.specs.Places.{points_at, claim_at, listed_club, listed_clubs, clubs_at};
ghost use Rattle.cert_text.specs.Places.{set_listed, set_at};

use league_core::limits::{MOST_CLUBS, MOST_DEDUCTION, MOST_POINTS};
use league_core::{Claim, ClubSet, OutOfMemory};
use serde_json::Value;
use std::alloc::Global;

/// Nothing stands at the place.
pub fn ends(value: &Value, place: usize) -> bool
    ensures { result ≡ is_end_at place (view value.now) }
{
    value.get(place).is_none()
}

/// The string at the place.
pub fn word(value: &Value, place: usize) -> Option<&str>
    ensures { option_map (λ name. name.now) result ≡ word_at place (view value.now) }
{
    value.get(place).and_then(Value::as_str)
}

/// The integer at the place, if it is within these bounds.
pub fn number(value: &Value, place: usize, least: u64, most: u64) -> Option<u64>
    ensures { result ≡ integer_at place least most (view value.now) }
{
    let found = value.get(place).and_then(Value::as_u64)?;
    if least <= found && found <= most {
        Some(found)
    } else {
        None
    }
}

/// The fixture at the place, one of so many, by its number from 0.
pub fn fixture(value: &Value, place: usize, most: u16) -> Option<u16>
    ensures { result ≡ numbered_at most place (view value.now) }
{
    let found = number(value, place, 1, u64::from(most))?;
    Some((found - 1) as u16)
}

/// The club at the place, one of so many, by its number from 0.
pub fn club(value: &Value, place: usize, most: u8) -> Option<u8>
    ensures { result ≡ numbered_at most place (view value.now) }
{
    let found = number(value, place, 1, u64::from(most))?;
    Some((found - 1) as u8)
}

/// The points at the place.
pub fn points(value: &Value, place: usize) -> Option<i32>
    ensures { result ≡ points_at place (view value.now) }
{
    let found = value.get(place).and_then(Value::as_i64)?;
    if -i64::from(MOST_DEDUCTION) <= found && found <= i64::from(MOST_POINTS) {
        Some(found as i32)
    } else {
        None
    }
}

/// The claim that is named at the place.
pub fn claim(value: &Value, place: usize) -> Option<Claim>
    ensures { result ≡ claim_at place (view value.now) }
{
    let name = word(value, place)?;
    if name == "inside" {
        Some(Claim::Inside)
    } else if name == "outside" {
        Some(Claim::Outside)
    } else {
        None
    }
}

// A club as an item of a list.
fn club_of(value: &Value, most: u8) -> Option<u8>
    ensures { result ≡ listed_club most (view value.now) }
{
    let found = value.as_u64()?;
    if 1 <= found && found <= u64::from(most) {
        Some((found - 1) as u8)
    } else {
        None
    }
}

// The clubs of a list, if each of its items is one.
fn clubs_of(alloc: Global, items: &[Value], most: u8) -> Result<Option<Vec<u8>>, OutOfMemory>
    ensures { IfOk result (λ found.
        option_map (λ clubs. clubs.items) found ≡ listed_clubs most (items_view items.now)) }
{
    let mut clubs = Vec::new(alloc);
    for item in items {
        match club_of(item, most) {
            Some(club) => clubs.push(club)?,
            None => return Ok(None),
        }
    }
    Ok(Some(clubs))
}

/// The list of clubs at the place, each one of so many, by their numbers from 0.
pub fn clubs(
    alloc: Global,
    value: &Value,
    place: usize,
    most: u8,
) -> Result<Option<Vec<u8>>, OutOfMemory>
    ensures { IfOk result
        (λ found. option_map (λ clubs. clubs.items) found ≡ clubs_at most place (view value.now)) }
{
    match value.get(place).and_then(Value::as_array) {
        Some(items) => clubs_of(alloc, items.as_slice(), most),
        None => Ok(None),
    }
}

/// The set of the clubs of a list that rises and has a club, all of a league.
pub fn set_of(clubs: &[u8]) -> Option<ClubSet>
    ensures { result ≡ set_listed clubs.now }
{
    if clubs.is_empty() {
        return None;
    }
    let mut least = 0_u8;
    let mut bits = 0_u32;
    for club in clubs {
        if *club < least || MOST_CLUBS <= *club {
            return None;
        }
        bits += 1 << *club;
        least = *club + 1;
    }
    Some(ClubSet { bits })
}

/// The set of clubs of a league at the place.
pub fn set(alloc: Global, value: &Value, place: usize) -> Result<Option<ClubSet>, OutOfMemory>
    ensures { IfOk result (λ found. found ≡ set_at place (view value.now)) }
{
    match clubs(alloc, value, place, MOST_CLUBS)? {
        Some(clubs) => Ok(set_of(clubs.as_slice())),
        None => Ok(None),
    }
}
