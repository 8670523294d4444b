//! A joint finish as lines.

ghost use Rattle.std.specs.Prelude.{◌≡◌, ◌<◌, ◌≤◌, ◌+◌, ◌++◌, OnOk, length};
ghost use Rattle.cup_sheet.specs.Cups.{IsCup, AreSeasonsOf};
ghost use Rattle.cup_sheet.specs.JointFinishes.{AreFinishesOf};
ghost use Rattle.runners_up.specs.inside.JointEnds.{group_finishes};
ghost use Rattle.cup_sheet.specs.CupLimits.{most_cup_fixtures};
ghost use Rattle.cup_text.specs.CupItems.{cup_score_if, group_scores_from, joint_scores_from};
ghost use Rattle.cup_text.specs.CupItems.{joint_lines};
ghost use Rattle.cup_rows.specs.inside.JointLines.{scores_together, AreEndsAlike};

use cert_text::ClubList;
use cup_sheet::Cup;
use cup_text::CupLine;
use league_core::{Claim, Listing, OutOfMemory, Score, Season};
use runners_up::JointFinish;
use std::alloc::Global;
use tree_arena::Example;

/// Adds a joint finish, under the head of its side: how the fixtures end that the seasons have no
/// score for, and the lots.
pub(crate) fn push_joint(
    alloc: Global,
    lines: &mut Vec<CupLine>,
    cup: &Cup,
    claim: Claim,
    seasons: &[Season],
    joint: &JointFinish,
) -> Result<(), OutOfMemory>
    requires cup { IsCup cup.now }
    requires seasons { AreSeasonsOf cup.now.groups seasons.now }
    requires ends { AreFinishesOf cup.now.groups seasons.now (group_finishes joint.now.ends) }
    ensures { OnOk result (lines.new.items
        ≡ lines.old.items ++ joint_lines claim seasons.now (group_finishes joint.now.ends)
        joint.now.lots) }
{
    lines.push(CupLine::Finish(claim))?;
    push_all_scores(lines, seasons, joint.ends.as_slice())?;
    let list = Listing::from_vec(Vec::from_slice(alloc, joint.lots.order())?);
    lines.push(CupLine::Lots(ClubList { list }))?;
    Ok(())
}

// The scores of all groups.
fn push_all_scores(
    lines: &mut Vec<CupLine>,
    seasons: &[Season],
    ends: &[Example],
) -> Result<(), OutOfMemory>
    requires alike { AreEndsAlike seasons.now ends.now }
    requires few { scores_together seasons.now ≤ most_cup_fixtures }
    ensures { OnOk result (lines.new.items
        ≡ lines.old.items ++ joint_scores_from 0 seasons.now (group_finishes ends.now)) }
{
    let mut first = 0;
    for group in 0..seasons.len() {
        let season = &seasons[group];
        push_group_scores(lines, first, season, ends[group].finish.as_season())?;
        first += season.scores().len() as u16;
    }
    Ok(())
}

// The scores of a group, whose first fixture has this number in the cup.
fn push_group_scores(
    lines: &mut Vec<CupLine>,
    first: u16,
    season: &Season,
    finish: &Season,
) -> Result<(), OutOfMemory>
    requires same { length finish.now.scores ≡ length season.now.scores }
    requires few { first + length season.now.scores ≤ most_cup_fixtures }
    ensures { OnOk result (lines.new.items
        ≡ lines.old.items ++ group_scores_from first season.now.scores finish.now.scores) }
{
    for fixture in 0..season.scores().len() as u16 {
        let played = season.score(fixture);
        let ended = finish.score(fixture);
        push_score_if(lines, first + fixture, played, ended)?;
    }
    Ok(())
}

// The line of a fixture, by its number in the cup, if the season has no score for it.
fn push_score_if(
    lines: &mut Vec<CupLine>,
    fixture: u16,
    played: Option<Score>,
    ended: Option<Score>,
) -> Result<(), OutOfMemory>
    ensures { OnOk result (lines.new.items
        ≡ lines.old.items ++ cup_score_if fixture played ended) }
{
    if let (None, Some(score)) = (played, ended) {
        lines.push(CupLine::Score { fixture, score })?;
    }
    Ok(())
}
