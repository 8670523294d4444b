//! Which test splits a zone.

ghost use Rattle.std.specs.Prelude.{◌≡◌, ◌<◌, false, length, IsTrue};
ghost use Rattle.league_core.specs.search.Options.{is_single};
ghost use Rattle.league_core.specs.search.Splits.{are_all_marked};
ghost use Rattle.score_box.specs.inside.ZoneBoxViews.{HasFinish};
ghost use Rattle.branch_rules.specs.inside.Choices.{IsDueSplit};

use crate::goals::goal_test;
use crate::outcomes::outcome_test;
use crate::rating::Rater;
use crate::rivals::unmarked_rival;
use league_core::{ClubSet, Literal, Question, Test};
use score_box::ZoneBox;

/// A split that is chosen.
#[derive(Clone, Copy)]
pub struct Choice {
    pub literal: Literal,
    /// More sight of rivals would not make it better.
    pub is_urgent: bool,
}

/// A proper split of the box's zone, in the order in which splits are due: a rival that is not
/// marked, else an outcome of a fixture that has several left, else goals. Both halves have a
/// finish. Equal boxes and questions have equal choices; no memory is taken.
pub fn choose(zone_box: &ZoneBox, question: &Question) -> Literal
    requires has_finish { HasFinish zone_box.now }
    requires of_sheet { question.now.club < length zone_box.now.sheet.clubs }
    requires several { is_single zone_box.now.sheet zone_box.now.season zone_box.now.zone
        ≡ false }
    ensures { IsDueSplit zone_box.now question.now result.test }
{
    choose_seeing(zone_box, question, ClubSet::empty()).literal
}

/// The same where some rivals are known not to be level with the club on the points at which they
/// would meet it: outcomes that bring one of them there come first.
pub fn choose_seeing(zone_box: &ZoneBox, question: &Question, barred: ClubSet) -> Choice
    requires has_finish { HasFinish zone_box.now }
    requires of_sheet { question.now.club < length zone_box.now.sheet.clubs }
    requires several { is_single zone_box.now.sheet zone_box.now.season zone_box.now.zone
        ≡ false }
    ensures { IsDueSplit zone_box.now question.now result.literal.test }
{
    match unmarked_rival(zone_box, question) {
        Some(club) => chosen(Test::Rival { club }, true),
        None => score_choice(zone_box, question, barred),
    }
}

fn chosen(test: Test, is_urgent: bool) -> Choice
    ensures { result.literal.test ≡ test }
{
    Choice {
        literal: Literal { test, yes: true },
        is_urgent,
    }
}

fn score_choice(zone_box: &ZoneBox, question: &Question, barred: ClubSet) -> Choice
    requires has_finish { HasFinish zone_box.now }
    requires of_sheet { question.now.club < length zone_box.now.sheet.clubs }
    requires marked { IsTrue
        (are_all_marked zone_box.now.sheet question.now zone_box.now.zone) }
    requires several { is_single zone_box.now.sheet zone_box.now.season zone_box.now.zone
        ≡ false }
    ensures { IsDueSplit zone_box.now question.now result.literal.test }
{
    match outcome_test(zone_box, question, barred) {
        Some(rated) => chosen(rated.test, Rater::is_urgent(rated.rate)),
        None => chosen(goal_test(zone_box, question).unwrap(), true),
    }
}
