//! Numbers and lists of clubs at the start of a text, as the lines' own texts have them.

ghost use Rattle.std.specs.Prelude.{◌≡◌, ◌<◌, ◌+◌, ◌++◌, ◌∷◌, IfOk, IfSome, IsTrue, decimal};
ghost use Rattle.cert_text.specs.inside.PlainForms.{AreClubsAtEnd, IsNumberBefore, IsSetAtEnd};
ghost use Rattle.cert_text.specs.Ranges.{is_one_of};

use league_core::limits::MOST_CLUBS;
use league_core::{ClubSet, OutOfMemory};
use std::alloc::Global;

/// What is left of the text after these bytes, if it begins with them.
pub fn behind<'a>(text: &'a [u8], front: &[u8]) -> Option<&'a [u8]>
    ensures { IfSome result (λ rest. text.now ≡ front.now ++ rest.now) }
{
    text.strip_prefix(front)
}

/// The text is these bytes and no more.
#[inline(always)]
pub fn is_all(text: &[u8], bytes: &[u8]) -> bool
    ensures { IsTrue result → text.now ≡ bytes.now }
{
    text == bytes
}

/// The number between these bounds after a comma, as decimal has it, and what comes after it.
#[inline(always)]
pub fn number(text: &[u8], least: u16, most: u16) -> Option<(u16, &[u8])>
    ensures { IfSome result (λ it. IsNumberBefore least most text.now it.0 it.1.now) }
{
    let (number, rest) = digits(behind(text, b",")?)?;
    if least <= number && number <= most {
        Some((number, rest))
    } else {
        None
    }
}

// The number that the text begins with, of four digits at most, as decimal has it.
#[inline(always)]
fn digits(text: &[u8]) -> Option<(u16, &[u8])>
    ensures { IfSome result (λ it. (it.0 < 10000) × (text.now ≡ decimal it.0 ++ it.1.now)) }
{
    let (number, rest) = digit(text)?;
    Some(more_digits(number, rest))
}

// The number that these digits and those at the start of the text make. After a 0 none may come.
#[inline(always)]
fn more_digits(first: u16, text: &[u8]) -> (u16, &[u8])
    requires { first < 10 }
    ensures few { result.0 < 10000 }
    ensures digits { decimal first ++ text.now ≡ decimal result.0 ++ result.1.now }
{
    let mut number = first;
    let mut rest = text;
    'digits: while 0 < number && number < 1000 {
        match digit(rest) {
            Some((next, more)) => {
                number = 10 * number + next;
                rest = more;
            }
            None => return (number, rest),
        }
    }
    (number, rest)
}

// The digit that the text begins with, as a number.
fn digit(text: &[u8]) -> Option<(u16, &[u8])>
    ensures { IfSome result (λ it. (it.0 < 10) × (text.now ≡ (48 + it.0) ∷ it.1.now)) }
{
    match text {
        [byte, rest @ ..] if b'0' <= *byte && *byte <= b'9' => {
            Some((u16::from(*byte - b'0'), rest))
        }
        _ => None,
    }
}

/// The clubs of the list that ends a line, each one of so many, by their numbers from 0.
pub fn clubs_at_end(alloc: Global, text: &[u8], most: u8) -> Result<Option<Vec<u8>>, OutOfMemory>
    ensures { IfOk result
        (λ found. IfSome found (λ list. AreClubsAtEnd most text.now list.items)) }
{
    let Some(mut rest) = behind(text, b",[") else {
        return Ok(None);
    };
    let mut list = Vec::with_capacity(alloc, most as usize)?;
    'clubs: loop {
        let Some((club, more)) = club(rest, most) else {
            return Ok(None);
        };
        list.push(club)?;
        if is_all(more, b"]]") {
            return Ok(Some(list));
        }
        match behind(more, b",") {
            Some(next) => rest = next,
            None => return Ok(None),
        }
    }
}

/// The set of the clubs, in rising order, whose list ends a line.
pub fn cut_at_end(text: &[u8]) -> Option<ClubSet>
    ensures { IfSome result (IsSetAtEnd text.now) }
{
    let mut rest = behind(text, b",[")?;
    let mut least = 0_u8;
    let mut bits = 0_u32;
    'clubs: loop {
        let (club, more) = club(rest, MOST_CLUBS)?;
        if club < least {
            return None;
        }
        bits += 1 << club;
        least = club + 1;
        if is_all(more, b"]]") {
            return Some(ClubSet { bits });
        }
        rest = behind(more, b",")?;
    }
}

// The club whose number the text begins with.
fn club(text: &[u8], most: u8) -> Option<(u8, &[u8])>
    ensures { IfSome result (λ it.
        IsTrue (is_one_of most it.0) × (text.now ≡ decimal (it.0 + 1) ++ it.1.now)) }
{
    let (number, rest) = digits(text)?;
    if 1 <= number && number <= u16::from(most) {
        Some(((number - 1) as u8, rest))
    } else {
        None
    }
}
