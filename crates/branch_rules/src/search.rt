//! What is found in the zone of a box.

ghost use Rattle.std.specs.Prelude.{IfOk, IsTrue};
ghost use Rattle.league_core.specs.game.Questions.{IsQuestionOf};
ghost use Rattle.score_box.specs.inside.ZoneBoxViews.{HasFinish};
ghost use Rattle.branch_rules.specs.inside.Found.{IsFoundIn, IsProposedExample, IsProposedInVain};
ghost use Rattle.branch_rules.specs.inside.Found.{is_proposed_example};

use crate::choice::choose;
use crate::reasons::first_reason;
use example_finish::{is_example, propose};
use final_rank::lots_for;
use flow_bound::FlowKeep;
use league_core::{Finish, Lots, OutOfMemory, Question};
use reason_core::Finding;
use score_box::ZoneBox;
use std::alloc::Global;

/// The proposed finish with lots, exactly when it is an example; otherwise the first reason,
/// exactly when one holds; otherwise a split. A finish is made for an example alone. Cuts are
/// sought from what an earlier search left in the keep, whatever that was.
pub fn find_with(
    alloc: Global,
    zone_box: &ZoneBox,
    question: &Question,
    keep: &mut FlowKeep,
) -> Result<Finding, OutOfMemory>
    requires has_finish { HasFinish zone_box.now }
    requires of_sheet { IsQuestionOf zone_box.now.sheet question.now }
    ensures { IfOk result
        (IsFoundIn zone_box.now.sheet zone_box.now.season question.now zone_box.now.zone) }
{
    if is_example(zone_box, question) {
        let (finish, lots) = proposed(alloc, zone_box, question)?;
        Ok(Finding::Won(finish, lots))
    } else {
        reason_or_split(alloc, zone_box, question, keep)
    }
}

/// The proposed finish, with the lots that favour the claim, where it is an example.
pub fn proposed(
    alloc: Global,
    zone_box: &ZoneBox,
    question: &Question,
) -> Result<(Finish, Lots), OutOfMemory>
    requires has_finish { HasFinish zone_box.now }
    requires of_sheet { IsQuestionOf zone_box.now.sheet question.now }
    requires example { IsTrue (is_proposed_example
        zone_box.now.sheet zone_box.now.season question.now zone_box.now.zone) }
    ensures { IfOk result (λ pair. IsProposedExample zone_box.now.sheet zone_box.now.season
        question.now zone_box.now.zone pair.0 pair.1) }
{
    let _season = zone_box.season();
    let finish = propose(alloc, zone_box, question)?;
    let clubs = zone_box.sheet().clubs.len() as u8;
    let lots = lots_for(alloc, clubs, question.club, question.claim)?;
    Ok((finish, lots))
}

// The first reason if one holds, otherwise a split.
fn reason_or_split(
    alloc: Global,
    zone_box: &ZoneBox,
    question: &Question,
    keep: &mut FlowKeep,
) -> Result<Finding, OutOfMemory>
    requires has_finish { HasFinish zone_box.now }
    requires of_sheet { IsQuestionOf zone_box.now.sheet question.now }
    requires in_vain { IsProposedInVain
        zone_box.now.sheet zone_box.now.season question.now zone_box.now.zone }
    ensures { IfOk result
        (IsFoundIn zone_box.now.sheet zone_box.now.season question.now zone_box.now.zone) }
{
    let _season = zone_box.season();
    match first_reason(alloc, zone_box, question, keep)? {
        Some(reason) => Ok(Finding::Refuted(reason)),
        None => Ok(Finding::Split(choose(zone_box, question))),
    }
}
