//! What is sure of clubs against one club, by points first, then in a walk over the matches that
//! are not played for each group in which the head-to-head record is taken. The groups depend on
//! the one club alone, so all its rivals are judged together.

ghost use Rattle.std.specs.Prelude.{◌≡◌, ◌<◌, ℕ, true, IsTrue, length};
ghost use Rattle.league_core.specs.declared.sheet.Order.TheVariants.{OverallFirst};
ghost use Rattle.league_core.specs.game.Sums.{has_club};
ghost use Rattle.league_core.specs.game.ClubSets.{clubs_in};
ghost use Rattle.league_core.specs.search.SureOrder.{sure_by, sure_order};
ghost use Rattle.tie_bound.specs.inside.Boxes.{options_in_box, have_one_outcome};
ghost use Rattle.tie_bound.specs.inside.Answers.{answer_at, AreByPoints, AreLevelIn};
ghost use Rattle.tie_bound.specs.inside.Answers.{StepDecidesFor};

use crate::answer_sets::Answers;
use crate::answers::by_least;
use crate::steps::{by_all_matches, take_first_sums};
use crate::taken::leave_open;
use crate::tie_rounds::take_rounds;
use league_core::{ClubSet, Order};
use score_box::ZoneBox;

/// The answers of the sheet's clubs by points. Without a finish, or against a number that is no
/// club's, the box keeps no ends of points to look at.
pub fn answers_on_points(zone_box: &ZoneBox, club: u8) -> Answers
    requires { IsTrue (have_one_outcome zone_box.now) }
    ensures { AreByPoints zone_box.now club result }
{
    let clubs = zone_box.sheet().clubs.len() as u8;
    if club < clubs && zone_box.has_finish() {
        by_least(zone_box, club)
    } else {
        by_all_matches(zone_box, club)
    }
}

/// The answers of the clubs that are asked for against the one, from those by points.
pub fn answers_against(zone_box: &ZoneBox, points: Answers, asked: ClubSet, club: u8) -> Answers
    requires outcomes { IsTrue (have_one_outcome zone_box.now) }
    requires points { AreByPoints zone_box.now club points }
    ensures { (rival : ℕ) → rival < length zone_box.now.sheet.clubs
        → has_club (clubs_in asked) rival ≡ true → answer_at result rival
        ≡ sure_order zone_box.now.sheet zone_box.now.season zone_box.now.zone rival club }
{
    let clubs = zone_box.sheet().clubs.len() as u8;
    let group = points.those_level(clubs);
    take_criteria(points, zone_box, asked, group, club)
}

// Takes the criteria within the group of all clubs that are level on points, in the sheet's order.
fn take_criteria(
    answers: Answers,
    zone_box: &ZoneBox,
    asked: ClubSet,
    group: ClubSet,
    club: u8,
) -> Answers
    requires outcomes { IsTrue (have_one_outcome zone_box.now) }
    requires level { AreLevelIn (length zone_box.now.sheet.clubs) answers (clubs_in group) }
    ensures { StepDecidesFor (clubs_in asked) (length zone_box.now.sheet.clubs)
        (λ rival. sure_by zone_box.now.sheet.order zone_box.now.sheet
        (options_in_box zone_box.now) (clubs_in group) rival club) answers result }
{
    match zone_box.sheet().order {
        Order::HeadFirst => take_rounds(answers, zone_box, asked, group, club),
        Order::OverallFirst => take_overall_first(answers, zone_box, asked, group, club),
    }
}

// Takes difference and goals over all matches, and then the criteria among the clubs of the group
// that surely share them, if it is sure which these are.
fn take_overall_first(
    answers: Answers,
    zone_box: &ZoneBox,
    asked: ClubSet,
    group: ClubSet,
    club: u8,
) -> Answers
    requires outcomes { IsTrue (have_one_outcome zone_box.now) }
    requires level { AreLevelIn (length zone_box.now.sheet.clubs) answers (clubs_in group) }
    ensures { StepDecidesFor (clubs_in asked) (length zone_box.now.sheet.clubs)
        (λ rival. sure_by OverallFirst zone_box.now.sheet (options_in_box zone_box.now)
        (clubs_in group) rival club) answers result }
{
    let clubs = zone_box.sheet().clubs.len() as u8;
    let taken = take_first_sums(answers, zone_box, group, club);
    if !taken.is_sure {
        return leave_open(taken.answers, group);
    }
    let level = taken.answers.those_level(clubs);
    take_rounds(taken.answers, zone_box, asked, level, club)
}
