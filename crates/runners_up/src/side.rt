//! A side of a club at one key: shown, refuted, or not settled.

ghost use Rattle.std.specs.Prelude.{◌≡◌, IfOk};
ghost use Rattle.club_keys.specs.inside.KeyEnds.{key_parts};
ghost use Rattle.cup_sheet.specs.Cups.{IsCup, AreSeasonsOf};
ghost use Rattle.cup_groups.specs.inside.ClubSeats.{IsSeatIn};
ghost use Rattle.runners_up.specs.inside.SidesAtKeys.{IsOwnEnd, IsSideAtKey};

use crate::any_end::any_ends;
use crate::joint::{JointFinish, joint_finish};
use crate::survey::{EmptyGroup, FarSide, GroupSurvey, OpenGroup, survey_groups};
use cup_groups::{ClubSeat, listed_groups, shown_groups};
use cup_sheet::Cup;
use league_core::{OutOfMemory, Season};
use std::alloc::Global;
use tree_arena::Example;

/// What is known of a side of a club that can be its group's candidate with the key.
#[derive(Drop)]
pub enum SideAtKey {
    /// A joint finish at which the club is on the side.
    Shown(JointFinish),
    /// Other groups without a candidate on the far side of the key: too many for the club to be on
    /// its side with this key.
    Refuted(Vec<EmptyGroup>),
    /// There are neither, and the budget was spent on a question about this group.
    Spent(OpenGroup),
}

/// Asks all other groups. The end is one of the club's own group at which it is the candidate with
/// the key.
pub fn side_at_key(
    alloc: Global,
    cup: &Cup,
    seasons: &[Season],
    seat: &ClubSeat,
    sought: &FarSide,
    own: Example,
) -> Result<SideAtKey, OutOfMemory>
    requires cup { IsCup cup.now }
    requires seasons { AreSeasonsOf cup.now.groups seasons.now }
    requires seat { IsSeatIn cup.now.groups seat.now }
    requires mine { sought.now.mine ≡ seat.now.group }
    requires own { IsOwnEnd cup.now seasons.now seat.now (key_parts sought.now.key) own }
    ensures { IfOk result (IsSideAtKey cup.now seasons.now seat.now sought.now.claim
        (key_parts sought.now.key)) }
{
    let mut ends = any_ends(alloc, cup, seasons)?;
    ends[sought.mine as usize] = own;
    let survey = survey_groups(alloc, cup, seasons, sought, ends)?;
    let GroupSurvey {
        ends,
        shown,
        listed,
        unknown,
    } = survey;
    if shown.len() >= shown_groups(cup, sought.claim) {
        let joint = joint_finish(alloc, cup, ends, seat, sought.claim)?;
        return Ok(SideAtKey::Shown(joint));
    }
    if listed.len() >= listed_groups(cup, sought.claim) {
        return Ok(SideAtKey::Refuted(listed));
    }
    Ok(SideAtKey::Spent(unknown.unwrap()))
}
