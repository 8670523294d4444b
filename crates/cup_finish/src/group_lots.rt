//! The lots of a cup within one of its groups.

ghost use Rattle.std.specs.Prelude.{◌≡◌, ◌≤◌, ◌+◌, IfOk, IsTrue, length};
ghost use Rattle.league_core.specs.game.Ranking.{are_lots};
ghost use Rattle.cup_sheet.specs.JointFinishes.{is_in_block, lots_within};

use league_core::{Lots, OutOfMemory};
use std::alloc::{AllocError, Global};

/// The lots of the group with so many clubs from `first` on: its clubs in the order of the cup's
/// lots, by their numbers in the group.
pub fn lots_within(alloc: Global, lots: &Lots, first: u8, count: u8) -> Result<Lots, OutOfMemory>
    requires { first + count ≤ length lots.now }
    ensures value { IfOk result (λ own. own
        ≡ lots_within (record { first = first; count = count }) lots.now) }
    ensures drawn { IfOk result (λ own. IsTrue (are_lots count own)) }
{
    let order = numbers_within(alloc, lots.order(), first, count)?;
    Ok(Lots::new(order).unwrap())
}

fn numbers_within(alloc: Global, order: &[u8], first: u8, count: u8) -> Result<Vec<u8>, AllocError>
    ensures { IfOk result (λ own. own.items
        ≡ lots_within (record { first = first; count = count }) order.now) }
{
    let mut own = Vec::new(alloc);
    for club in order {
        if is_within(first, count, *club) {
            own.push(*club - first)?;
        }
    }
    Ok(own)
}

/// The club of the cup is one of the group with so many clubs from `first` on.
pub(crate) fn is_within(first: u8, count: u8, club: u8) -> bool
    ensures { result ≡ is_in_block (record { first = first; count = count }) club }
{
    first <= club && club - first < count
}
