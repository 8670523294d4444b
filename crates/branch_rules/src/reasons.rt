//! The first reason why a question holds nowhere in a zone.

ghost use Rattle.std.specs.Prelude.{◌≡◌, ◌<◌, false, IfOk, IfSome, None, length};
ghost use Rattle.league_core.specs.declared.zone.Reason.{Reason};
ghost use Rattle.league_core.specs.search.Reasons.{has_reason};
ghost use Rattle.score_box.specs.inside.ZoneBoxViews.{HasFinish};
ghost use Rattle.branch_rules.specs.inside.Found.{IsFirstReason};

use flow_bound::{FlowKeep, high_cut_from, low_cut_from};
use league_core::{OutOfMemory, Question, Reason};
use score_box::ZoneBox;
use std::alloc::Global;
use tie_bound::{count_reason, tie_reason, window_reason};

/// The first reason that holds: the marks, the window, a floor cut, a ceiling cut, the criteria;
/// none if none holds. Both cuts are sought from what the keep holds.
pub fn first_reason(
    alloc: Global,
    zone_box: &ZoneBox,
    question: &Question,
    keep: &mut FlowKeep,
) -> Result<Option<Reason>, OutOfMemory>
    requires has_finish { HasFinish zone_box.now }
    requires of_sheet { question.now.club < length zone_box.now.sheet.clubs }
    ensures found { IfOk result (λ answer. IfSome answer
        (IsFirstReason zone_box.now.sheet zone_box.now.season question.now zone_box.now.zone)) }
    ensures absent { IfOk result (λ answer. answer ≡ None → (reason : Reason) → has_reason
        zone_box.now.sheet zone_box.now.season question.now zone_box.now.zone reason ≡ false) }
{
    if count_reason(zone_box, question) {
        return Ok(Some(Reason::Count));
    }
    if window_reason(zone_box, question) {
        return Ok(Some(Reason::Window));
    }
    if let Some(clubs) = low_cut_from(alloc, zone_box, question, keep)? {
        return Ok(Some(Reason::Low(clubs)));
    }
    if let Some(clubs) = high_cut_from(alloc, zone_box, question, keep)? {
        return Ok(Some(Reason::High(clubs)));
    }
    if tie_reason(zone_box, question) {
        return Ok(Some(Reason::Tie));
    }
    Ok(None)
}
