//! One question about a group, searched from its root on.

ghost use Rattle.std.specs.Prelude.{◌≡◌, ◌<◌, [], false, IfOk, IsTrue, length};
ghost use Rattle.league_core.specs.game.Results.{are_results};
ghost use Rattle.league_core.specs.game.Seasons.{IsLeague};
ghost use Rattle.score_box.specs.inside.ZoneBoxViews.{HasFinish};
ghost use Rattle.cup_sheet.specs.declared.question.GroupReason.{GroupReason};
ghost use Rattle.cup_sheet.specs.CupLimits.{direct_places};
ghost use Rattle.cup_sheet.specs.GroupQuestions.{has_group_reason};
ghost use Rattle.group_search.specs.inside.GroupLooks.{IsGroupLookIn, IsVainInGroup};
ghost use Rattle.group_search.specs.inside.GroupTasks.{AskedInGroup, asked_in_group};
ghost use Rattle.group_search.specs.inside.GroupTasks.{MayLookInGroup, ShowsInGroup};
ghost use Rattle.group_search.specs.inside.GroupTasks.{RefutesInGroup, SplitsInGroup};
ghost use Rattle.group_search.specs.inside.GroupTasks.{IsGroupSolved};
ghost use Rattle.cup_groups.specs.inside.KindQuestions.{group_question_of};

use crate::example::example_in;
use crate::reason::group_reason;
use branch_rules::{choose, move_to};
use cup_groups::KindQuestion;
use cup_sheet::GroupReason;
use depth_search::{Kind, SearchEnd, ZoneLook, work_through};
use flow_bound::FlowKeep;
use league_core::{Literal, OutOfMemory, Season, Sheet};
use score_box::{Played, ZoneBox};
use std::alloc::Global;
use tree_arena::Example;

/// A question, and what it is worked on with. From one zone to the next the box goes back to the
/// prefix that both share, and on from there.
#[derive(Drop)]
struct GroupTask<'a> {
    alloc: Global,
    zone_box: ZoneBox<'a>,
    keep: FlowKeep,
    question: KindQuestion,
}

impl<'a> Kind for GroupTask<'a> {
    type Reason = GroupReason;

    type Example = Example;

    ghost Subject = { AskedInGroup };

    ghost subject = { asked_in_group };

    ghost fits = { MayLookInGroup };

    ghost shows = { ShowsInGroup };

    ghost refutes = { RefutesInGroup };

    ghost splits = { SplitsInGroup };

    fn look(
        &mut self,
        zone: &[Literal],
        _spent: u32,
    ) -> Result<ZoneLook<Example, GroupReason>, OutOfMemory> {
        move_to(&mut self.zone_box, zone)?;
        find_in_group(self.alloc, &self.zone_box, &self.question, &mut self.keep)
    }
}

impl<'a> GroupTask<'a> {
    // Depth first, until the question is known or the budget is spent.
    fn work(&mut self, budget: u32) -> Result<SearchEnd<Example, GroupReason>, OutOfMemory>
        requires root { MayLookInGroup (asked_in_group self.old) [] }
        ensures { IfOk result (IsGroupSolved self.old.zone_box.sheet self.old.zone_box.season
            (group_question_of self.old.question) budget) }
    {
        work_through(self.alloc, self, budget)
    }
}

// The proposed finish if it is an example; otherwise a reason or a split.
fn find_in_group(
    alloc: Global,
    zone_box: &ZoneBox,
    question: &KindQuestion,
    keep: &mut FlowKeep,
) -> Result<ZoneLook<Example, GroupReason>, OutOfMemory>
    requires has_finish { HasFinish zone_box.now }
    requires in_range { question.now.club < length zone_box.now.sheet.clubs }
    requires results { IsTrue (are_results zone_box.now.season) }
    ensures { IfOk result (IsGroupLookIn zone_box.now.sheet zone_box.now.season
        (group_question_of question.now) zone_box.now.zone) }
{
    match example_in(alloc, zone_box, question)? {
        Some(example) => Ok(ZoneLook::Won(example)),
        None => reason_or_split(alloc, zone_box, question, keep),
    }
}

// A reason if one holds, otherwise a split.
fn reason_or_split(
    alloc: Global,
    zone_box: &ZoneBox,
    question: &KindQuestion,
    keep: &mut FlowKeep,
) -> Result<ZoneLook<Example, GroupReason>, OutOfMemory>
    requires has_finish { HasFinish zone_box.now }
    requires in_range { question.now.club < length zone_box.now.sheet.clubs }
    requires in_vain { IsVainInGroup zone_box.now.sheet zone_box.now.season
        (group_question_of question.now) zone_box.now.zone }
    ensures { IfOk result (IsGroupLookIn zone_box.now.sheet zone_box.now.season
        (group_question_of question.now) zone_box.now.zone) }
{
    match group_reason(alloc, zone_box, question, keep)? {
        Some(reason) => Ok(ZoneLook::Refuted(reason)),
        None => Ok(split_of(zone_box, question)),
    }
}

// A split of a zone in which nothing is found.
fn split_of(zone_box: &ZoneBox, question: &KindQuestion) -> ZoneLook<Example, GroupReason>
    requires has_finish { HasFinish zone_box.now }
    requires in_range { question.now.club < length zone_box.now.sheet.clubs }
    requires in_vain { IsVainInGroup zone_box.now.sheet zone_box.now.season
        (group_question_of question.now) zone_box.now.zone }
    requires no_reason { (reason : GroupReason) → has_group_reason direct_places
        zone_box.now.sheet zone_box.now.season (group_question_of question.now)
        zone_box.now.zone reason ≡ false }
    ensures { IsGroupLookIn zone_box.now.sheet zone_box.now.season
        (group_question_of question.now) zone_box.now.zone result }
{
    let _season = zone_box.season();
    ZoneLook::Split(choose(zone_box, &question.place()).test)
}

/// Works on a question about a club of a group from its root on, until an example is found, the
/// whole tree is refuted, or the sheet's budget is spent.
pub fn solve_group(
    alloc: Global,
    sheet: &Sheet,
    season: &Season,
    question: &KindQuestion,
) -> Result<SearchEnd<Example, GroupReason>, OutOfMemory>
    requires league { IsLeague sheet.now season.now }
    requires in_range { question.now.club < length sheet.now.clubs }
    ensures { IfOk result (IsGroupSolved sheet.now season.now (group_question_of question.now)
        sheet.now.budget) }
{
    let _scores = season.scores();
    let played = Played::of(alloc, sheet, season)?;
    let mut task = GroupTask {
        alloc,
        zone_box: ZoneBox::over(alloc, &played, &[])?,
        keep: FlowKeep::new(),
        question: *question,
    };
    task.work(sheet.budget)
}
