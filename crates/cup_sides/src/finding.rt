//! What is known of a club of a cup.

ghost use Rattle.std.specs.Prelude.{◌≡◌, ◌<◌, IfOk};
ghost use Rattle.league_core.specs.declared.question.Claim.TheVariants.{Outside};
ghost use Rattle.cup_sheet.specs.Cups.{IsCup, AreSeasonsOf, clubs_together};
ghost use Rattle.runners_up.specs.inside.ClubFindings.{IsClubFinding, IsOpenSide};
ghost use Rattle.cup_sides.specs.inside.CupSides.{finding_with};

use crate::cup_side::CupSide;
use crate::side::side_of;
use cup_sheet::Cup;
use league_core::{Claim, OutOfMemory, Season};
use runners_up::{ClubFinding, JointFinish, OpenSide, have_results};
use std::alloc::Global;

/// Whether a club, by its number in the cup from 0, qualifies at each joint finish, at none or at
/// some. Each question has the whole budget of the cup.
pub fn club_finding(
    alloc: Global,
    cup: &Cup,
    seasons: &[Season],
    club: u8,
) -> Result<ClubFinding, OutOfMemory>
    requires cup { IsCup cup.now }
    requires seasons { AreSeasonsOf cup.now.groups seasons.now }
    requires in_range { club < clubs_together cup.now.groups }
    ensures { IfOk result (IsClubFinding cup.now seasons.now club) }
{
    have_results(seasons);
    match side_of(alloc, cup, seasons, Claim::Outside, club)? {
        CupSide::Refuted(found) => Ok(ClubFinding::Clinched(found)),
        CupSide::Shown(joint) => with_outside(alloc, cup, seasons, club, OpenSide::Shown(joint)),
        CupSide::Spent(group) => with_outside(alloc, cup, seasons, club, OpenSide::Spent(group)),
    }
}

// Of a club that may be able to miss.
fn with_outside(
    alloc: Global,
    cup: &Cup,
    seasons: &[Season],
    club: u8,
    outside: OpenSide,
) -> Result<ClubFinding, OutOfMemory>
    requires cup { IsCup cup.now }
    requires seasons { AreSeasonsOf cup.now.groups seasons.now }
    requires in_range { club < clubs_together cup.now.groups }
    requires outside { IsOpenSide cup.now seasons.now Outside club outside }
    ensures { IfOk result (IsClubFinding cup.now seasons.now club) }
{
    have_results(seasons);
    let inside = side_of(alloc, cup, seasons, Claim::Inside, club)?;
    Ok(finding_with(inside, outside))
}

fn finding_with(inside: CupSide, outside: OpenSide) -> ClubFinding
    ensures { result ≡ finding_with inside outside }
{
    match inside {
        CupSide::Refuted(found) => ClubFinding::Lost(found),
        CupSide::Shown(joint) => finding_if_shown(joint, outside),
        CupSide::Spent(group) => ClubFinding::Unsettled {
            inside: OpenSide::Spent(group),
            outside,
        },
    }
}

// Of a club that can qualify.
fn finding_if_shown(inside: JointFinish, outside: OpenSide) -> ClubFinding
    ensures { result ≡ finding_with (CupSide.Shown inside) outside }
{
    match outside {
        OpenSide::Shown(outside) => ClubFinding::Possible { inside, outside },
        OpenSide::Spent(group) => ClubFinding::Unsettled {
            inside: OpenSide::Shown(inside),
            outside: OpenSide::Spent(group),
        },
    }
}
