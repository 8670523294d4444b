//! The two drawings of lots that matter for one club: it comes first in the one, last in the other.

ghost use Rattle.std.specs.Prelude.{◌≡◌, ◌<◌, ◌++◌, IfOk, OnOk};
ghost use Rattle.league_core.specs.search.Zones.{others_of};
ghost use Rattle.league_core.specs.inside.LotsFor.{first_lots, last_lots, lots_for_claim};

use league_core::{Claim, Lots, OutOfMemory};
use std::alloc::{AllocError, Global};

/// The club, by its number from 0, first for `Inside`, last for `Outside`, and the others of all
/// `clubs`, which is how many there are, in the order of their numbers.
pub fn lots_for(alloc: Global, clubs: u8, club: u8, claim: Claim) -> Result<Lots, OutOfMemory>
    requires { club < clubs }
    ensures { IfOk result (λ lots. lots ≡ lots_for_claim clubs club claim) }
{
    let order = drawn(alloc, clubs, club, claim)?;
    Ok(Lots::new(order).unwrap())
}

fn drawn(alloc: Global, clubs: u8, club: u8, claim: Claim) -> Result<Vec<u8>, AllocError>
    ensures { IfOk result (λ order. order.items ≡ lots_for_claim clubs club claim) }
{
    match claim {
        Claim::Inside => club_first(alloc, clubs, club),
        Claim::Outside => club_last(alloc, clubs, club),
    }
}

fn club_first(alloc: Global, clubs: u8, club: u8) -> Result<Vec<u8>, AllocError>
    ensures { IfOk result (λ order. order.items ≡ first_lots clubs club) }
{
    let mut order = Vec::new(alloc);
    order.push(club)?;
    push_others(&mut order, clubs, club)?;
    Ok(order)
}

fn club_last(alloc: Global, clubs: u8, club: u8) -> Result<Vec<u8>, AllocError>
    ensures { IfOk result (λ order. order.items ≡ last_lots clubs club) }
{
    let mut order = Vec::new(alloc);
    push_others(&mut order, clubs, club)?;
    order.push(club)?;
    Ok(order)
}

// Adds the clubs but this one at the end, in the order of their numbers.
fn push_others(order: &mut Vec<u8>, clubs: u8, club: u8) -> Result<(), AllocError>
    ensures { OnOk result (order.new.items ≡ order.old.items ++ others_of clubs club) }
{
    for other in 0..clubs {
        if other != club {
            order.push(other)?;
        }
    }
    Ok(())
}
