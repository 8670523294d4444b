//! The tests of splits out of the lines' own texts.

ghost use Rattle.std.specs.Prelude.{ℕ, IfSome, codes};
ghost use Rattle.cert_text.specs.inside.PlainForms.{IsTestAtEnd, next_named};

use crate::plain_number::{is_all, number};
use league_core::Test;
use league_core::limits::MOST_GOALS;

/// The test of a split, of one of so many fixtures or clubs, after its name.
#[inline(always)]
pub fn test(text: &[u8], fixtures: u16, clubs: u8) -> Option<Test>
    ensures { IfSome result (IsTestAtEnd fixtures clubs text.now) }
{
    match text {
        [b',', b'"', b'd', b'r', b'a', b'w', b'"', rest @ ..] => drawn(rest, fixtures),
        [b',', b'"', b'h', b'o', b'm', b'e', b'"', rest @ ..] => home_win(rest, fixtures),
        [b',', b'"', b'r', b'i', b'v', b'a', b'l', b'"', rest @ ..] => rival(rest, clubs),
        [b',', b'"', b'h', b'g', b'"', rest @ ..] => home_most(rest, fixtures),
        [b',', b'"', b'a', b'g', b'"', rest @ ..] => away_most(rest, fixtures),
        _ => None,
    }
}

#[inline(always)]
fn rival(text: &[u8], clubs: u8) -> Option<Test>
    ensures { (fixtures : ℕ) → IfSome result
        (IsTestAtEnd fixtures clubs (next_named (codes "rival") text.now)) }
{
    let (club, rest) = number(text, 1, u16::from(clubs))?;
    if is_all(rest, b"]") {
        let club = (club - 1) as u8;
        Some(Test::Rival { club })
    } else {
        None
    }
}

#[inline(always)]
fn home_win(text: &[u8], fixtures: u16) -> Option<Test>
    ensures { (clubs : ℕ) → IfSome result
        (IsTestAtEnd fixtures clubs (next_named (codes "home") text.now)) }
{
    let (fixture, rest) = number(text, 1, fixtures)?;
    if is_all(rest, b"]") {
        let fixture = fixture - 1;
        Some(Test::Home { fixture })
    } else {
        None
    }
}

#[inline(always)]
fn drawn(text: &[u8], fixtures: u16) -> Option<Test>
    ensures { (clubs : ℕ) → IfSome result
        (IsTestAtEnd fixtures clubs (next_named (codes "draw") text.now)) }
{
    let (fixture, rest) = number(text, 1, fixtures)?;
    if is_all(rest, b"]") {
        let fixture = fixture - 1;
        Some(Test::Draw { fixture })
    } else {
        None
    }
}

#[inline(always)]
fn home_most(text: &[u8], fixtures: u16) -> Option<Test>
    ensures { (clubs : ℕ) → IfSome result
        (IsTestAtEnd fixtures clubs (next_named (codes "hg") text.now)) }
{
    let (fixture, rest) = number(text, 1, fixtures)?;
    let (most, rest) = number(rest, 0, u16::from(MOST_GOALS) - 1)?;
    if is_all(rest, b"]") {
        let (fixture, most) = (fixture - 1, most as u8);
        Some(Test::HomeMost { fixture, most })
    } else {
        None
    }
}

#[inline(always)]
fn away_most(text: &[u8], fixtures: u16) -> Option<Test>
    ensures { (clubs : ℕ) → IfSome result
        (IsTestAtEnd fixtures clubs (next_named (codes "ag") text.now)) }
{
    let (fixture, rest) = number(text, 1, fixtures)?;
    let (most, rest) = number(rest, 0, u16::from(MOST_GOALS) - 1)?;
    if is_all(rest, b"]") {
        let (fixture, most) = (fixture - 1, most as u8);
        Some(Test::AwayMost { fixture, most })
    } else {
        None
    }
}
