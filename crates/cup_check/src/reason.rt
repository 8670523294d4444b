//! Whether a leaf of a tree about a group shows what it says.

ghost use Rattle.std.specs.Prelude.{◌≡◌, ◌<◌, length};
ghost use Rattle.league_core.specs.game.Questions.{IsQuestionOf};
ghost use Rattle.league_core.specs.search.Reasons.{has_reason};
ghost use Rattle.cup_sheet.specs.declared.question.GroupReason.TheVariants.{ByKey};
ghost use Rattle.cup_sheet.specs.CupLimits.{direct_places};
ghost use Rattle.cup_sheet.specs.GroupQuestions.{has_group_reason};
ghost use Rattle.cup_groups.specs.inside.KindQuestions.{group_question_of};
ghost use Rattle.cup_grammar.specs.PlacedGroups.{is_reason_of_kind};
ghost use Rattle.cup_check.specs.inside.CupTreeCalls.{IsInGroup};

use crate::place::GroupPlace;
use check_bounds::Trail;
use cup_groups::KindQuestion;
use cup_sheet::GroupReason;
use league_core::{Question, Reason};
use line_tokens::is_reason_for;

impl<'a> GroupPlace<'a> {
    /// The reason is one of the question's kind, and its sets name other clubs of the group.
    pub fn may_refute(&self, question: &KindQuestion, reason: GroupReason) -> bool
        requires { question.now.club < length self.now.sheet.clubs }
        ensures { result ≡ is_reason_of_kind self.now (group_question_of question.now) reason }
    {
        let is_place = question.is_of_place();
        match reason {
            GroupReason::Plain(why) => {
                is_place && is_reason_for(self.sheet, &question.place(), why)
            }
            GroupReason::In(why) => !is_place && is_reason_for(self.sheet, &question.place(), why),
            GroupReason::Out(why) => !is_place && is_reason_for(self.sheet, &question.place(), why),
            GroupReason::ByKey => !is_place,
        }
    }

    /// The reason is one of the kind, and it holds in the zone that is due.
    #[tactic(auto, unfolding(cup_sheet::specs::GroupQuestions::has_group_reason))]
    pub fn has_reason(&self, question: &KindQuestion, path: &Trail, reason: GroupReason) -> bool
        requires in_range { question.now.club < length self.now.sheet.clubs }
        requires path { IsInGroup self.now path.now }
        ensures { result ≡ has_group_reason direct_places self.now.sheet self.now.season
            (group_question_of question.now) path.now.zone reason }
    {
        self.recall_place();
        let is_place = question.is_of_place();
        match reason {
            GroupReason::Plain(why) => is_place && self.holds(path, &question.place(), why),
            GroupReason::In(why) => !is_place && self.holds(path, &question.reach(), why),
            GroupReason::Out(why) => !is_place && self.holds(path, &question.after(), why),
            GroupReason::ByKey => is_refuted_by_key(question, path),
        }
    }

    // The question about the group's table holds nowhere in the zone, by this reason.
    fn holds(&self, path: &Trail, question: &Question, why: Reason) -> bool
        requires question { IsQuestionOf self.now.sheet question.now }
        requires path { IsInGroup self.now path.now }
        ensures { result ≡ has_reason self.now.sheet self.now.season question.now path.now.zone
            why }
    {
        path.holds(question, why)
    }
}

// The zone has a finish, and no key of the club there is on the side that is asked for.
#[tactic(auto, unfolding(cup_sheet::specs::GroupQuestions::has_group_reason))]
fn is_refuted_by_key(question: &KindQuestion, path: &Trail) -> bool
    requires { question.now.club < length path.now.sheet.clubs }
    ensures { result ≡ has_group_reason direct_places path.now.sheet path.now.season
        (group_question_of question.now) path.now.zone ByKey }
{
    path.has_finish() && question.is_refuted_by(&path.key_ends(question.club))
}
