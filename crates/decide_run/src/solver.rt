//! A worker on one season, which looks for near reasons too.

ghost use Rattle.std.specs.Prelude.{◌≡◌, ◌<◌, false, IfOk, IsTrue, length};
ghost use Rattle.league_core.specs.declared.zone.Reason.{Reason};
ghost use Rattle.league_core.specs.game.Questions.{IsQuestionOf};
ghost use Rattle.league_core.specs.search.Zones.{IsZoneFor, is_zone_of};
ghost use Rattle.league_core.specs.search.Options.{has_finish, is_single};
ghost use Rattle.league_core.specs.search.Reasons.{has_reason};
ghost use Rattle.score_box.specs.inside.ZoneBoxViews.{HasFinish};
ghost use Rattle.branch_rules.specs.inside.Choices.{IsDueSplit};
ghost use Rattle.branch_rules.specs.inside.Found.{IsProposedInVain};
ghost use Rattle.near_box.specs.inside.Sights.{IsKeepOf};
ghost use Rattle.decide_run.specs.inside.WideLooks.{IsLookIn};

use branch_rules::{Choice, choose_seeing, first_reason, move_to, proposed};
use depth_search::ZoneLook;
use example_finish::is_example;
use flow_bound::FlowKeep;
use league_core::{ClubSet, Literal, OutOfMemory, Question};
use near_box::NearKeep;
use score_box::{Played, ZoneBox};
use std::alloc::Global;
use std::marker::Model;
use tree_arena::Example;
use wide_lines::WideReason;

/// Works on zones of one season. From one zone to the next the box goes back to the prefix that
/// both share, and on from there, and a search for a cut begins with the flow of the one before.
/// Contracts see the sheet and the season.
#[derive(Drop)]
pub(crate) struct WideSolver<'a> {
    alloc: Global,
    zone_box: ZoneBox<'a>,
    keep: FlowKeep,
    near: NearKeep,
}

impl<'a> Model for WideSolver<'a> {
    ghost use Rattle.score_box.specs.inside.PlayedViews.{PlayedView};
    ghost use Rattle.near_box.specs.inside.Sights.{IsKeepOf};

    ghost Value = { PlayedView };

    ghost view = { λ w. record { sheet = w.zone_box.sheet; season = w.zone_box.season } };

    ghost invariant = { λ w. IsKeepOf w.zone_box.sheet w.zone_box.season w.near };
}

impl<'a> WideSolver<'a> {
    /// A worker on the season that the tables are of.
    pub fn new(alloc: Global, played: &'a Played<'a>) -> Result<WideSolver<'a>, OutOfMemory>
        ensures { IfOk result (λ worker. worker ≡ played.now) }
    {
        let zone_box = ZoneBox::over(alloc, played, &[])?;
        Ok(WideSolver {
            alloc,
            zone_box,
            keep: FlowKeep::new(),
            near: NearKeep::of(played.sheet(), played.season()),
        })
    }

    /// What is found in a zone: an example, a reason, or a split where none of the reasons holds.
    pub fn look(
        &mut self,
        question: &Question,
        zone: &[Literal],
    ) -> Result<ZoneLook<Example, WideReason>, OutOfMemory>
        requires of_sheet { IsQuestionOf self.old.sheet question.now }
        requires of_zone { IsZoneFor self.old.sheet question.now zone.now }
        requires has_finish { IsTrue
            (has_finish self.old.sheet self.old.season zone.now) }
        ensures found { IfOk result (IsLookIn self.old.sheet self.old.season
            question.now zone.now) }
        ensures same_sheet { self.new.sheet ≡ self.old.sheet }
        ensures same_season { self.new.season ≡ self.old.season }
    {
        move_to(&mut self.zone_box, zone)?;
        find_wide(
            self.alloc,
            &self.zone_box,
            question,
            &mut self.keep,
            &mut self.near,
        )
    }
}

// The proposed finish if it is an example; otherwise a reason or a split.
fn find_wide(
    alloc: Global,
    zone_box: &ZoneBox,
    question: &Question,
    keep: &mut FlowKeep,
    near: &mut NearKeep,
) -> Result<ZoneLook<Example, WideReason>, OutOfMemory>
    requires has_finish { HasFinish zone_box.now }
    requires of_sheet { IsQuestionOf zone_box.now.sheet question.now }
    requires of_zone { IsTrue (is_zone_of zone_box.now.sheet zone_box.now.zone) }
    requires near { IsKeepOf zone_box.now.sheet zone_box.now.season near.old }
    ensures found { IfOk result
        (IsLookIn zone_box.now.sheet zone_box.now.season question.now zone_box.now.zone) }
    ensures near { IsKeepOf zone_box.now.sheet zone_box.now.season near.new }
{
    if is_example(zone_box, question) {
        let (finish, lots) = proposed(alloc, zone_box, question)?;
        Ok(ZoneLook::Won(Example { finish, lots }))
    } else {
        reason_or_split(alloc, zone_box, question, keep, near)
    }
}

// The first reason that holds, the near reason after the others; otherwise a split.
fn reason_or_split(
    alloc: Global,
    zone_box: &ZoneBox,
    question: &Question,
    keep: &mut FlowKeep,
    near: &mut NearKeep,
) -> Result<ZoneLook<Example, WideReason>, OutOfMemory>
    requires has_finish { HasFinish zone_box.now }
    requires of_sheet { IsQuestionOf zone_box.now.sheet question.now }
    requires of_zone { IsTrue (is_zone_of zone_box.now.sheet zone_box.now.zone) }
    requires in_vain { IsProposedInVain
        zone_box.now.sheet zone_box.now.season question.now zone_box.now.zone }
    requires near { IsKeepOf zone_box.now.sheet zone_box.now.season near.old }
    ensures found { IfOk result
        (IsLookIn zone_box.now.sheet zone_box.now.season question.now zone_box.now.zone) }
    ensures near { IsKeepOf zone_box.now.sheet zone_box.now.season near.new }
{
    match first_reason(alloc, zone_box, question, keep)? {
        Some(reason) => Ok(ZoneLook::Refuted(WideReason::Plain(reason))),
        None => Ok(near_or_split(zone_box, question, near)),
    }
}

// The near reason by the first rival by which it holds; otherwise a split.
fn near_or_split(
    zone_box: &ZoneBox,
    question: &Question,
    near: &mut NearKeep,
) -> ZoneLook<Example, WideReason>
    requires has_finish { HasFinish zone_box.now }
    requires of_sheet { IsQuestionOf zone_box.now.sheet question.now }
    requires of_zone { IsTrue (is_zone_of zone_box.now.sheet zone_box.now.zone) }
    requires in_vain { IsProposedInVain
        zone_box.now.sheet zone_box.now.season question.now zone_box.now.zone }
    requires no_reason { (reason : Reason) → has_reason
        zone_box.now.sheet zone_box.now.season question.now zone_box.now.zone reason ≡ false }
    requires near { IsKeepOf zone_box.now.sheet zone_box.now.season near.old }
    ensures found { IsLookIn
        zone_box.now.sheet zone_box.now.season question.now zone_box.now.zone result }
    ensures near { IsKeepOf zone_box.now.sheet zone_box.now.season near.new }
{
    let _season = zone_box.season();
    let choice = choose_seeing(zone_box, question, ClubSet::empty());
    let seen = near.look(zone_box, question, !choice.is_urgent);
    match seen.near {
        Some(rival) => ZoneLook::Refuted(WideReason::Near(rival)),
        None => ZoneLook::Split(seeing(zone_box, question, choice, seen.barred).literal.test),
    }
}

// The choice, or if rivals are barred, that which sees them.
fn seeing(zone_box: &ZoneBox, question: &Question, choice: Choice, barred: ClubSet) -> Choice
    requires has_finish { HasFinish zone_box.now }
    requires of_sheet { question.now.club < length zone_box.now.sheet.clubs }
    requires several { is_single zone_box.now.sheet zone_box.now.season zone_box.now.zone
        ≡ false }
    requires choice { IsDueSplit zone_box.now question.now choice.literal.test }
    ensures { IsDueSplit zone_box.now question.now result.literal.test }
{
    if barred.is_empty() {
        choice
    } else {
        choose_seeing(zone_box, question, barred)
    }
}
