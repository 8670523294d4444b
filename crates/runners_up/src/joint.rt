//! A joint finish of a cup from an end of each group.

ghost use Rattle.std.specs.Prelude.{◌≡◌, ◌<◌, ◌++◌, ℕ, Bool, List, All, IfOk, OnOk, filter, length};
ghost use Rattle.std.specs.Prelude.{map, ◌+◌};
ghost use Rattle.league_core.specs.game.Results.{Results};
ghost use Rattle.cup_sheet.specs.Cups.{IsCup};
ghost use Rattle.cup_groups.specs.inside.ClubSeats.{IsSeatIn, seat_block};
ghost use Rattle.runners_up.specs.inside.JointCalls.{IsJointEnd};
ghost use Rattle.runners_up.specs.inside.JointEnds.{AreGroupEnds, is_drawn_early, is_in_turn};
ghost use Rattle.runners_up.specs.inside.JointEnds.{joint_lots, lots_from};

use cup_groups::ClubSeat;
use cup_sheet::Cup;
use league_core::{Claim, Listing, Lots, OutOfMemory};
use std::alloc::{AllocError, Global};
use tree_arena::Example;

/// How a cup may end.
#[derive(Drop)]
pub struct JointFinish {
    /// How each group ends, with its clubs' numbers there.
    pub ends: Listing<Example>,
    /// Lots of all clubs, by their numbers in the cup. Within each group they are its own.
    pub lots: Lots,
}

/// The ends of all groups put together. The clubs of the seat's group are drawn before all others
/// if the club is to qualify, and after them if it is to miss.
pub fn joint_finish(
    alloc: Global,
    cup: &Cup,
    ends: Vec<Example>,
    seat: &ClubSeat,
    claim: Claim,
) -> Result<JointFinish, OutOfMemory>
    requires cup { IsCup cup.now }
    requires ends { (seasons : List Results) × AreGroupEnds cup.now.groups seasons ends.items }
    requires seat { IsSeatIn cup.now.groups seat.now }
    ensures { IfOk result (IsJointEnd cup.now ends.items seat.now claim) }
{
    let _groups = cup.groups.len();
    let order = joint_order(alloc, ends.as_slice(), seat, claim)?;
    let lots = Lots::new(order).unwrap();
    Ok(JointFinish {
        ends: Listing::from_vec(ends),
        lots,
    })
}

fn joint_order(
    alloc: Global,
    ends: &[Example],
    seat: &ClubSeat,
    claim: Claim,
) -> Result<Vec<u8>, AllocError>
    requires { length (lots_from 0 ends.now) < 256 }
    ensures { IfOk result (λ order. order.items
        ≡ joint_lots claim (seat_block seat.now) ends.now) }
{
    let all = lots_in_turn(alloc, ends)?;
    let mut order = Vec::new(alloc);
    push_part(&mut order, all.as_slice(), seat, claim, true)?;
    push_part(&mut order, all.as_slice(), seat, claim, false)?;
    Ok(order)
}

// The lots of the groups one after another, by the numbers of the cup.
fn lots_in_turn(alloc: Global, ends: &[Example]) -> Result<Vec<u8>, AllocError>
    requires few { length (lots_from 0 ends.now) < 256 }
    ensures { IfOk result (λ order. order.items ≡ lots_from 0 ends.now) }
{
    let mut order = Vec::new(alloc);
    for end in ends {
        push_lots(&mut order, end.lots.order())?;
    }
    Ok(order)
}

// Adds lots of the next group at the end.
fn push_lots(order: &mut Vec<u8>, lots: &[u8]) -> Result<(), AllocError>
    requires few { length order.old.items < 256 }
    requires room { All (λ (club : ℕ). length order.old.items + club < 256) lots.now }
    ensures { OnOk result (order.new.items ≡ order.old.items
        ++ map (λ (club : ℕ). length order.old.items + club) lots.now) }
{
    let first = order.len() as u8;
    for club in lots {
        order.push(first + *club)?;
    }
    Ok(())
}

// Adds the clubs that are drawn early, or those that are not.
fn push_part(
    order: &mut Vec<u8>,
    all: &[u8],
    seat: &ClubSeat,
    claim: Claim,
    early: bool,
) -> Result<(), AllocError>
    ensures { OnOk result (order.new.items ≡ order.old.items
        ++ filter (is_in_turn claim (seat_block seat.now) early) all.now) }
{
    for club in all {
        if is_drawn_early(seat, claim, *club) == early {
            order.push(*club)?;
        }
    }
    Ok(())
}

// To qualify a club's group is drawn early, to miss all others are.
fn is_drawn_early(seat: &ClubSeat, claim: Claim, club: u8) -> bool
    ensures { result ≡ is_drawn_early claim (seat_block seat.now) club }
{
    match claim {
        Claim::Inside => seat.has(club),
        Claim::Outside => !seat.has(club),
    }
}
