//! A side of a club by its place alone.

ghost use Rattle.std.specs.Prelude.{◌≡◌, ◌<◌, [], IfOk};
ghost use Rattle.cup_sheet.specs.Cups.{IsCup, AreSeasonsOf};
ghost use Rattle.cup_sheet.specs.KeyBounds.{place_kind};
ghost use Rattle.cup_groups.specs.inside.KindQuestions.{group_question_of};
ghost use Rattle.cup_groups.specs.inside.ClubSeats.{IsSeatIn};
ghost use Rattle.runners_up.specs.inside.SidesByPlace.{IsPlaceEnd, IsPlaceShown, IsSideByPlace};

use crate::any_end::any_ends;
use crate::joint::{JointFinish, joint_finish};
use crate::others::SpentQuestion;
use club_keys::ClubKey;
use cup_groups::{ClubSeat, KindQuestion};
use cup_sheet::{Cup, GroupKind, GroupReason};
use depth_search::{CaseNode, SearchEnd};
use group_search::solve_group;
use league_core::{Claim, OutOfMemory, Season};
use std::alloc::Global;
use tree_arena::Example;

/// What the question about a club's place comes to: for qualifying whether it can end at a direct
/// place, for missing whether it can end below the candidate.
#[derive(Drop)]
pub enum SideByPlace {
    /// It can: a joint finish.
    Shown(JointFinish),
    /// It cannot: the nodes of a refutation.
    Refuted(Vec<CaseNode<GroupReason>>),
    /// The budget was spent on it.
    Spent(SpentQuestion),
}

/// Asks about the place of a club.
pub fn side_by_place(
    alloc: Global,
    cup: &Cup,
    seasons: &[Season],
    seat: &ClubSeat,
    claim: Claim,
) -> Result<SideByPlace, OutOfMemory>
    requires cup { IsCup cup.now }
    requires seasons { AreSeasonsOf cup.now.groups seasons.now }
    requires seat { IsSeatIn cup.now.groups seat.now }
    ensures { IfOk result (IsSideByPlace cup.now seasons.now seat.now claim) }
{
    let group = seat.group as usize;
    let season = &seasons[group];
    let _played = season.scores();
    let question = place_question(claim, seat.own);
    match solve_group(alloc, &cup.groups.as_slice()[group], season, &question)? {
        SearchEnd::Won(end) => {
            let joint = joint_by_place(alloc, cup, seasons, seat, claim, end)?;
            Ok(SideByPlace::Shown(joint))
        }
        SearchEnd::Refuted(nodes) => Ok(SideByPlace::Refuted(nodes)),
        SearchEnd::Spent(nodes) => Ok(SideByPlace::Spent(SpentQuestion { question, nodes })),
    }
}

// The club's end, with some end of each other group.
fn joint_by_place(
    alloc: Global,
    cup: &Cup,
    seasons: &[Season],
    seat: &ClubSeat,
    claim: Claim,
    own: Example,
) -> Result<JointFinish, OutOfMemory>
    requires cup { IsCup cup.now }
    requires seasons { AreSeasonsOf cup.now.groups seasons.now }
    requires seat { IsSeatIn cup.now.groups seat.now }
    requires own { IsPlaceEnd cup.now seasons.now seat.now claim own }
    ensures { IfOk result (IsPlaceShown cup.now seasons.now seat.now claim) }
{
    let mut ends = any_ends(alloc, cup, seasons)?;
    ends[seat.group as usize] = own;
    let joint = joint_finish(alloc, cup, ends, seat, claim)?;
    Ok(joint)
}

fn place_question(claim: Claim, own: u8) -> KindQuestion
    ensures value { group_question_of result
        ≡ record { kind = place_kind claim; club = own; key = [] } }
    ensures club { result.club ≡ own }
{
    match claim {
        Claim::Outside => about_place(GroupKind::Below, own),
        Claim::Inside => about_place(GroupKind::Top, own),
    }
}

// Such a question does not look at the key.
fn about_place(kind: GroupKind, own: u8) -> KindQuestion
    ensures kind { result.kind ≡ kind }
    ensures club { result.club ≡ own }
{
    KindQuestion {
        kind,
        club: own,
        key: ClubKey {
            points: 0,
            difference: 0,
            goals: 0,
            away_goals: 0,
            wins: 0,
            away_wins: 0,
            by_rank: 0,
        },
    }
}
