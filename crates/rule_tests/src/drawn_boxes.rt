//! Drawn leagues with some more goals, and drawn literals, most of which leave a score that was
//! left before, so that paths go deep.

ghost use Rattle.std.specs.Prelude.{◌≤◌, IfOk};
ghost use Rattle.league_core.specs.game.Seasons.{IsLeague};

use crate::plain_boxes::agrees;
use league_core::{Literal, Test};
use sample_leagues::{Draws, Sample, drawn_league, sample_of};
use score_box::ZoneBox;
use std::alloc::Global;
use std::test::Fail;

pub const CLUBS: u8 = 6;

pub const MATCHES: u8 = 12;

/// The league of a text.
pub fn league_in(alloc: Global, text: &[u8]) -> Result<Sample, Fail>
    ensures { IfOk result (λ sample. IsLeague sample.sheet sample.season) }
{
    Ok(sample_of(alloc, text).ok_or("no league")?)
}

fn drawn_text(
    alloc: Global,
    draws: &mut Draws,
    clubs: u8,
    matches: u8,
    open: u8,
    digit: u8,
) -> Result<Vec<u8>, Fail>
    requires { 2 ≤ clubs }
{
    let mut text = drawn_league(alloc, draws, clubs, matches, open)?;
    if let Some(limit) = text.get_mut("league,Drawn,".len()) {
        *limit = digit;
    }
    Ok(text)
}

/// A drawn league, as `drawn_league` has it, but with this digit as its goal limit.
pub fn drawn_sample(
    alloc: Global,
    draws: &mut Draws,
    clubs: u8,
    matches: u8,
    open: u8,
    digit: u8,
) -> Result<Sample, Fail>
    requires { 2 ≤ clubs }
    ensures { IfOk result (λ sample. IsLeague sample.sheet sample.season) }
{
    let text = drawn_text(alloc, draws, clubs, matches, open, digit)?;
    league_in(alloc, &text)
}

fn drawn_test(draws: &mut Draws) -> Test {
    let fixture = u16::from(draws.below(MATCHES));
    let most = draws.below(4);
    match draws.below(7) {
        0 => Test::Home { fixture },
        1 => Test::Draw { fixture },
        2 => Test::HomeMost { fixture, most },
        3 => Test::AwayMost { fixture, most },
        _ => Test::Rival {
            club: draws.below(CLUBS),
        },
    }
}

fn fixture_of(test: Test) -> Option<u16> {
    match test {
        Test::Home { fixture }
        | Test::Draw { fixture }
        | Test::HomeMost { fixture, .. }
        | Test::AwayMost { fixture, .. } => Some(fixture),
        Test::Rival { .. } => None,
    }
}

// What a score that is left says of the test, if there is one.
fn said_of(kept: &ZoneBox, test: Test, otherwise: bool) -> bool {
    let Some(fixture) = fixture_of(test) else {
        return otherwise;
    };
    if !kept.has_finish() || kept.season().scores().len() <= usize::from(fixture) {
        return otherwise;
    }
    let score = kept.pick(fixture);
    agrees(&Literal { test, yes: true }, fixture, score)
}

/// One in sixteen is drawn whatever is left.
pub fn drawn_literal(draws: &mut Draws, kept: &ZoneBox) -> Literal {
    let test = drawn_test(draws);
    let mut yes = draws.flip();
    if draws.below(16) != 0 {
        yes = said_of(kept, test, yes);
    }
    Literal { test, yes }
}
