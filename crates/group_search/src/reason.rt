//! A reason why a question about a group holds nowhere in a zone.

ghost use Rattle.std.specs.Prelude.{◌≡◌, ◌<◌, false, IfOk, IfSome, IsTrue, None, length};
ghost use Rattle.score_box.specs.inside.ZoneBoxViews.{HasFinish};
ghost use Rattle.cup_sheet.specs.declared.question.GroupReason.{GroupReason};
ghost use Rattle.cup_sheet.specs.CupLimits.{direct_places};
ghost use Rattle.cup_sheet.specs.GroupQuestions as asked;
ghost use Rattle.group_search.specs.inside.GroupLooks.{IsGroupReasonIn};
ghost use Rattle.cup_groups.specs.inside.KindQuestions.{group_question_of};

use branch_rules::first_reason;
use cup_groups::KindQuestion;
use cup_sheet::GroupReason;
use flow_bound::FlowKeep;
use key_bounds::key_ends;
use league_core::OutOfMemory;
use score_box::ZoneBox;
use std::alloc::Global;

/// A reason of the kind that holds in the box's zone; none exactly if none holds.
pub(crate) fn group_reason(
    alloc: Global,
    zone_box: &ZoneBox,
    question: &KindQuestion,
    keep: &mut FlowKeep,
) -> Result<Option<GroupReason>, OutOfMemory>
    requires has_finish { HasFinish zone_box.now }
    requires in_range { question.now.club < length zone_box.now.sheet.clubs }
    ensures found { IfOk result (λ answer. IfSome answer (IsGroupReasonIn zone_box.now.sheet
        zone_box.now.season (group_question_of question.now) zone_box.now.zone)) }
    ensures absent { IfOk result (λ answer. answer ≡ None → (reason : GroupReason)
        → asked.has_group_reason direct_places zone_box.now.sheet zone_box.now.season
        (group_question_of question.now) zone_box.now.zone reason ≡ false) }
{
    if question.is_of_place() {
        place_reason(alloc, zone_box, question, keep)
    } else {
        candidate_reason(alloc, zone_box, question, keep)
    }
}

// For a kind about the place alone.
fn place_reason(
    alloc: Global,
    zone_box: &ZoneBox,
    question: &KindQuestion,
    keep: &mut FlowKeep,
) -> Result<Option<GroupReason>, OutOfMemory>
    requires has_finish { HasFinish zone_box.now }
    requires in_range { question.now.club < length zone_box.now.sheet.clubs }
    requires of_place { IsTrue (asked.is_of_place question.now.kind) }
    ensures found { IfOk result (λ answer. IfSome answer (IsGroupReasonIn zone_box.now.sheet
        zone_box.now.season (group_question_of question.now) zone_box.now.zone)) }
    ensures absent { IfOk result (λ answer. answer ≡ None → (reason : GroupReason)
        → asked.has_group_reason direct_places zone_box.now.sheet zone_box.now.season
        (group_question_of question.now) zone_box.now.zone reason ≡ false) }
{
    match first_reason(alloc, zone_box, &question.place(), keep)? {
        Some(reason) => Ok(Some(GroupReason::Plain(reason))),
        None => Ok(None),
    }
}

// For a kind about a candidate: its key first, which costs least.
fn candidate_reason(
    alloc: Global,
    zone_box: &ZoneBox,
    question: &KindQuestion,
    keep: &mut FlowKeep,
) -> Result<Option<GroupReason>, OutOfMemory>
    requires has_finish { HasFinish zone_box.now }
    requires in_range { question.now.club < length zone_box.now.sheet.clubs }
    requires of_candidate { asked.is_of_place question.now.kind ≡ false }
    ensures found { IfOk result (λ answer. IfSome answer (IsGroupReasonIn zone_box.now.sheet
        zone_box.now.season (group_question_of question.now) zone_box.now.zone)) }
    ensures absent { IfOk result (λ answer. answer ≡ None → (reason : GroupReason)
        → asked.has_group_reason direct_places zone_box.now.sheet zone_box.now.season
        (group_question_of question.now) zone_box.now.zone reason ≡ false) }
{
    if question.is_refuted_by(&key_ends(zone_box, question.club)) {
        return Ok(Some(GroupReason::ByKey));
    }
    if let Some(reason) = first_reason(alloc, zone_box, &question.reach(), keep)? {
        return Ok(Some(GroupReason::In(reason)));
    }
    match first_reason(alloc, zone_box, &question.after(), keep)? {
        Some(reason) => Ok(Some(GroupReason::Out(reason))),
        None => Ok(None),
    }
}
