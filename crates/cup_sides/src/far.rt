//! A side at the turning key, also of a club that cannot be its group's candidate.

ghost use Rattle.std.specs.Prelude.{◌≡◌, IfOk};
ghost use Rattle.club_keys.specs.inside.KeyEnds.{key_parts};
ghost use Rattle.cup_sheet.specs.Cups.{IsCup, AreSeasonsOf};
ghost use Rattle.cup_sheet.specs.KeyBounds.{far_key};
ghost use Rattle.cup_groups.specs.inside.ClubSeats.{IsSeatIn};
ghost use Rattle.runners_up.specs.inside.SidesAtKeys.{IsSideAtKey};
ghost use Rattle.cup_sides.specs.inside.KeysOfSeats.{IsExampleOfSeat};

use cup_groups::{ClubSeat, listed_groups};
use cup_sheet::Cup;
use league_core::{OutOfMemory, Season};
use runners_up::{
    FarSide, GroupSurvey, SideAtKey, any_ends, have_results, side_at_key, survey_groups,
};
use std::alloc::Global;
use tree_arena::Example;

/// Asks all other groups, whether the club can be the candidate or not.
pub(crate) fn side_at(
    alloc: Global,
    cup: &Cup,
    seasons: &[Season],
    seat: &ClubSeat,
    sought: &FarSide,
    example: Option<Example>,
) -> Result<SideAtKey, OutOfMemory>
    requires cup { IsCup cup.now }
    requires seasons { AreSeasonsOf cup.now.groups seasons.now }
    requires seat { IsSeatIn cup.now.groups seat.now }
    requires mine { sought.now.mine ≡ seat.now.group }
    requires example { IsExampleOfSeat cup.now seasons.now seat.now sought.now.claim
        (key_parts sought.now.key) example }
    ensures { IfOk result (IsSideAtKey cup.now seasons.now seat.now sought.now.claim
        (key_parts sought.now.key)) }
{
    match example {
        Some(own) => side_at_key(alloc, cup, seasons, seat, sought, own),
        None => side_at_far_key(alloc, cup, seasons, seat, sought),
    }
}

// At the key beyond all no group has a candidate on the far side.
fn side_at_far_key(
    alloc: Global,
    cup: &Cup,
    seasons: &[Season],
    seat: &ClubSeat,
    sought: &FarSide,
) -> Result<SideAtKey, OutOfMemory>
    requires cup { IsCup cup.now }
    requires seasons { AreSeasonsOf cup.now.groups seasons.now }
    requires seat { IsSeatIn cup.now.groups seat.now }
    requires mine { sought.now.mine ≡ seat.now.group }
    requires far { key_parts sought.now.key ≡ far_key sought.now.claim }
    ensures { IfOk result (IsSideAtKey cup.now seasons.now seat.now sought.now.claim
        (key_parts sought.now.key)) }
{
    have_results(seasons);
    let ends = any_ends(alloc, cup, seasons)?;
    let survey = survey_groups(alloc, cup, seasons, sought, ends)?;
    let GroupSurvey {
        listed,
        unknown,
        ..
    } = survey;
    if listed.len() >= listed_groups(cup, sought.claim) {
        return Ok(SideAtKey::Refuted(listed));
    }
    Ok(SideAtKey::Spent(unknown.unwrap()))
}
