//! How a match may end, and the zone in which it ends so.

ghost use Rattle.std.specs.Prelude.{◌≡◌, IfOk};
ghost use Rattle.what_if.specs.Bases.{base_of};

use league_core::{Listing, Literal, OutOfMemory, Test, Zone};
use std::alloc::Global;

/// How a match ends, seen from its home side.
#[derive(Clone, Copy, Debug, PartialEq, Eq)]
pub enum Outcome {
    /// The home side wins.
    Home,
    /// Neither side wins.
    Draw,
    /// The away side wins.
    Away,
}

/// The zone in which a fixture, by its number from 0, ends so.
pub fn base_zone(alloc: Global, fixture: u16, outcome: Outcome) -> Result<Zone, OutOfMemory>
    ensures { IfOk result (λ zone. zone.literals ≡ base_of fixture outcome) }
{
    let home = Test::Home { fixture };
    let draw = Test::Draw { fixture };
    let literals = match outcome {
        Outcome::Home => Vec::from_slice(alloc, &[literal(home, true)])?,
        Outcome::Draw => Vec::from_slice(alloc, &[literal(draw, true)])?,
        Outcome::Away => Vec::from_slice(alloc, &[literal(home, false), literal(draw, false)])?,
    };
    let literals = Listing::from_vec(literals);
    Ok(Zone { literals })
}

fn literal(test: Test, yes: bool) -> Literal
    ensures { result ≡ record { test = test; yes = yes } }
{
    Literal { test, yes }
}
