//! A verdict as lines.

ghost use Rattle.std.specs.Prelude.{◌≡◌, ◌++◌, IfOk, OnOk};
ghost use Rattle.cup_sheet.specs.Cups.{IsCup, AreSeasonsOf};
ghost use Rattle.cup_rows.specs.inside.VerdictLines.{open_side_lines, open_group_lines};
ghost use Rattle.cup_rows.specs.inside.VerdictLines.{verdict_lines};
ghost use Rattle.cup_rows.specs.inside.VerdictLines.{IsOpenSideWithin, IsOpenGroupWithin};
ghost use Rattle.cup_rows.specs.inside.VerdictLines.{IsVerdictWithin};

use crate::joint_lines::push_joint;
use crate::refuted::refuted_lines;
use crate::tree_lines::push_spent;
use cup_groups::{ClubSeat, group_start};
use cup_sheet::Cup;
use cup_text::CupLine;
use league_core::{Claim, OutOfMemory, Season};
use runners_up::{ClubFinding, OpenGroup, OpenSide};
use std::alloc::Global;

/// The lines that show a verdict on the club that plays there: what stands for qualifying before
/// what stands for missing.
pub(crate) fn verdict_lines(
    alloc: Global,
    cup: &Cup,
    seasons: &[Season],
    seat: &ClubSeat,
    verdict: &ClubFinding,
) -> Result<Vec<CupLine>, OutOfMemory>
    requires cup { IsCup cup.now }
    requires seasons { AreSeasonsOf cup.now.groups seasons.now }
    requires within { IsVerdictWithin cup.now seasons.now seat.now verdict.now }
    ensures { IfOk result (λ lines. lines.items
        ≡ verdict_lines cup.now seasons.now seat.now verdict.now) }
{
    match verdict {
        ClubFinding::Clinched(found) => refuted_lines(alloc, cup, Claim::Outside, seat, found),
        ClubFinding::Lost(found) => refuted_lines(alloc, cup, Claim::Inside, seat, found),
        ClubFinding::Possible { inside, outside } => {
            let mut lines = Vec::new(alloc);
            push_joint(alloc, &mut lines, cup, Claim::Inside, seasons, inside)?;
            push_joint(alloc, &mut lines, cup, Claim::Outside, seasons, outside)?;
            Ok(lines)
        }
        ClubFinding::Unsettled { inside, outside } => {
            let mut lines = Vec::new(alloc);
            push_side(alloc, &mut lines, cup, seasons, Claim::Inside, inside)?;
            push_side(alloc, &mut lines, cup, seasons, Claim::Outside, outside)?;
            Ok(lines)
        }
    }
}

// What stands for a side that is not refuted.
fn push_side(
    alloc: Global,
    lines: &mut Vec<CupLine>,
    cup: &Cup,
    seasons: &[Season],
    claim: Claim,
    side: &OpenSide,
) -> Result<(), OutOfMemory>
    requires cup { IsCup cup.now }
    requires seasons { AreSeasonsOf cup.now.groups seasons.now }
    requires within { IsOpenSideWithin cup.now seasons.now side.now }
    ensures { OnOk result (lines.new.items
        ≡ lines.old.items ++ open_side_lines cup.now seasons.now claim side.now) }
{
    match side {
        OpenSide::Shown(joint) => push_joint(alloc, lines, cup, claim, seasons, joint),
        OpenSide::Spent(group) => push_open_group(alloc, lines, cup, group),
    }
}

fn push_open_group(
    alloc: Global,
    lines: &mut Vec<CupLine>,
    cup: &Cup,
    group: &OpenGroup,
) -> Result<(), OutOfMemory>
    requires cup { IsCup cup.now }
    requires within { IsOpenGroupWithin cup.now group.now }
    ensures { OnOk result (lines.new.items
        ≡ lines.old.items ++ open_group_lines cup.now group.now) }
{
    let start = group_start(cup, group.group);
    let spent = &group.spent;
    push_spent(alloc, lines, start, &spent.question, spent.nodes.as_slice())
}
