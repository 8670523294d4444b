//! A side of a club.

ghost use Rattle.std.specs.Prelude.{◌≡◌, ◌<◌, IfOk};
ghost use Rattle.cup_sheet.specs.Cups.{IsCup, AreSeasonsOf, clubs_together};
ghost use Rattle.cup_sides.specs.inside.CupSides.{IsCupSide};

use crate::by_key::side_by_key;
use crate::cup_side::CupSide;
use cup_groups::seat_of;
use cup_sheet::Cup;
use league_core::{Claim, OutOfMemory, Season};
use runners_up::{OpenGroup, SideByPlace, side_by_place};
use std::alloc::Global;

/// Whether a club, by its number in the cup from 0, can be on a side at the end. Each question has
/// the whole budget of the cup.
pub fn side_of(
    alloc: Global,
    cup: &Cup,
    seasons: &[Season],
    claim: Claim,
    club: u8,
) -> Result<CupSide, OutOfMemory>
    requires cup { IsCup cup.now }
    requires seasons { AreSeasonsOf cup.now.groups seasons.now }
    requires in_range { club < clubs_together cup.now.groups }
    ensures { IfOk result (IsCupSide cup.now seasons.now claim club) }
{
    let seat = seat_of(cup, club).unwrap();
    match side_by_place(alloc, cup, seasons, &seat, claim)? {
        SideByPlace::Shown(joint) => Ok(CupSide::Shown(joint)),
        SideByPlace::Refuted(place) => side_by_key(alloc, cup, seasons, &seat, claim, place),
        SideByPlace::Spent(spent) => Ok(CupSide::Spent(OpenGroup {
            group: seat.group,
            spent,
        })),
    }
}
