//! A side of a club whose place alone does not show it.

ghost use Rattle.std.specs.Prelude.{◌≡◌, IfOk};
ghost use Rattle.club_keys.specs.inside.KeyEnds.{key_parts};
ghost use Rattle.cup_sheet.specs.Cups.{IsCup, AreSeasonsOf};
ghost use Rattle.cup_groups.specs.inside.ClubSeats.{IsSeatIn};
ghost use Rattle.cup_sides.specs.inside.CupSides.{IsSideOfSeat};
ghost use Rattle.cup_sides.specs.inside.KeysOfSeats.{IsKeyOfSeat, IsPlaceRefuted};

use crate::cup_side::{CupSide, whole_side};
use crate::far::side_at;
use club_keys::ClubKey;
use cup_groups::ClubSeat;
use cup_sheet::{Cup, GroupReason};
use depth_search::CaseNode;
use league_core::{Claim, OutOfMemory, Season};
use runners_up::{FarSide, OpenGroup, SpentQuestion};
use std::alloc::Global;
use turning_keys::{KeyEnd, turning_key};

/// Looks for the turning key, and asks the other groups at it.
pub(crate) fn side_by_key(
    alloc: Global,
    cup: &Cup,
    seasons: &[Season],
    seat: &ClubSeat,
    claim: Claim,
    place: Vec<CaseNode<GroupReason>>,
) -> Result<CupSide, OutOfMemory>
    requires cup { IsCup cup.now }
    requires seasons { AreSeasonsOf cup.now.groups seasons.now }
    requires seat { IsSeatIn cup.now.groups seat.now }
    requires place { IsPlaceRefuted cup.now seasons.now seat.now claim place.items }
    ensures { IfOk result (IsSideOfSeat cup.now seasons.now claim seat.now) }
{
    match key_of_seat(alloc, cup, seasons, seat, claim)? {
        KeyEnd::Found {
            key,
            example,
            nodes,
        } => {
            let sought = sought_at(claim, key, seat);
            let side = side_at(alloc, cup, seasons, seat, &sought, example)?;
            Ok(whole_side(side, key, place, nodes))
        }
        KeyEnd::Spent { question, nodes } => {
            let spent = SpentQuestion { question, nodes };
            Ok(CupSide::Spent(OpenGroup {
                group: seat.group,
                spent,
            }))
        }
    }
}

// The turning key of the club in its group.
fn key_of_seat(
    alloc: Global,
    cup: &Cup,
    seasons: &[Season],
    seat: &ClubSeat,
    claim: Claim,
) -> Result<KeyEnd, OutOfMemory>
    requires cup { IsCup cup.now }
    requires seasons { AreSeasonsOf cup.now.groups seasons.now }
    requires seat { IsSeatIn cup.now.groups seat.now }
    ensures { IfOk result (IsKeyOfSeat cup.now seasons.now seat.now claim) }
{
    let group = seat.group as usize;
    let season = &seasons[group];
    turning_key(
        alloc,
        &cup.groups.as_slice()[group],
        season,
        claim,
        seat.own,
    )
}

// What is asked of all other groups.
fn sought_at(claim: Claim, key: ClubKey, seat: &ClubSeat) -> FarSide
    ensures claim { result.claim ≡ claim }
    ensures key { key_parts result.key ≡ key_parts key }
    ensures mine { result.mine ≡ seat.now.group }
{
    FarSide {
        claim,
        key,
        mine: seat.group,
    }
}
