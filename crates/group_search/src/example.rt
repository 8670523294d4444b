//! Whether the proposed finish of a zone is an example.

ghost use Rattle.std.specs.Prelude.{◌≡◌, ◌<◌, false, IfOk, IfSome, IsTrue, None, length};
ghost use Rattle.league_core.specs.game.Results.{are_results};
ghost use Rattle.score_box.specs.inside.ZoneBoxViews.{HasFinish};
ghost use Rattle.branch_rules.specs.inside.Found.{is_proposed_example};
ghost use Rattle.cup_sheet.specs.CupLimits.{direct_places};
ghost use Rattle.cup_sheet.specs.GroupQuestions as asked;
ghost use Rattle.group_search.specs.inside.GroupLooks.{IsGroupExampleOf, IsVainInGroup};
ghost use Rattle.cup_groups.specs.inside.KindQuestions.{group_question_of};

use crate::second::candidate_lots;
use club_keys::key_of;
use cup_groups::KindQuestion;
use example_finish::{is_example, propose};
use final_rank::lots_for;
use league_core::OutOfMemory;
use score_box::ZoneBox;
use std::alloc::Global;
use tree_arena::Example;

/// The proposed finish of the box's zone with lots that show it, if there are such.
pub(crate) fn example_in(
    alloc: Global,
    zone_box: &ZoneBox,
    question: &KindQuestion,
) -> Result<Option<Example>, OutOfMemory>
    requires has_finish { HasFinish zone_box.now }
    requires in_range { question.now.club < length zone_box.now.sheet.clubs }
    requires results { IsTrue (are_results zone_box.now.season) }
    ensures found { IfOk result (λ answer. IfSome answer (IsGroupExampleOf zone_box.now.sheet
        zone_box.now.season (group_question_of question.now))) }
    ensures absent { IfOk result (λ answer. answer ≡ None → IsVainInGroup zone_box.now.sheet
        zone_box.now.season (group_question_of question.now) zone_box.now.zone) }
{
    let _limits = zone_box.sheet();
    if !is_example(zone_box, &question.place()) {
        return Ok(None);
    }
    if question.is_of_place() {
        Ok(Some(example_of_place(alloc, zone_box, question)?))
    } else {
        example_of_candidate(alloc, zone_box, question)
    }
}

// The example of a question about the place alone.
fn example_of_place(
    alloc: Global,
    zone_box: &ZoneBox,
    question: &KindQuestion,
) -> Result<Example, OutOfMemory>
    requires has_finish { HasFinish zone_box.now }
    requires in_range { question.now.club < length zone_box.now.sheet.clubs }
    requires of_place { IsTrue (asked.is_of_place question.now.kind) }
    requires example { IsTrue (is_proposed_example zone_box.now.sheet zone_box.now.season
        (asked.place_question direct_places question.now.kind question.now.club)
        zone_box.now.zone) }
    ensures { IfOk result (IsGroupExampleOf zone_box.now.sheet zone_box.now.season
        (group_question_of question.now)) }
{
    let _season = zone_box.season();
    let place = question.place();
    let finish = propose(alloc, zone_box, &place)?;
    let clubs = zone_box.sheet().clubs.len() as u8;
    let lots = lots_for(alloc, clubs, place.club, place.claim)?;
    Ok(Example { finish, lots })
}

// That of a question about a candidate: some lots leave the club at the candidate's place, and its
// key is on the side that is asked for.
fn example_of_candidate(
    alloc: Global,
    zone_box: &ZoneBox,
    question: &KindQuestion,
) -> Result<Option<Example>, OutOfMemory>
    requires has_finish { HasFinish zone_box.now }
    requires in_range { question.now.club < length zone_box.now.sheet.clubs }
    requires of_candidate { asked.is_of_place question.now.kind ≡ false }
    ensures found { IfOk result (λ answer. IfSome answer (IsGroupExampleOf zone_box.now.sheet
        zone_box.now.season (group_question_of question.now))) }
    ensures absent { IfOk result (λ answer. answer ≡ None → IsVainInGroup zone_box.now.sheet
        zone_box.now.season (group_question_of question.now) zone_box.now.zone) }
{
    let _played = zone_box.season();
    let sheet = zone_box.sheet();
    let finish = propose(alloc, zone_box, &question.place())?;
    if !question.is_on_side(&key_of(sheet, finish.as_season(), question.club)) {
        return Ok(None);
    }
    match candidate_lots(alloc, sheet, finish.as_season(), question.club)? {
        Some(lots) => Ok(Some(Example { finish, lots })),
        None => Ok(None),
    }
}
