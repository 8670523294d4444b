//! The head-to-head record of a group, taken again in each smaller group that it leaves level.

ghost use Rattle.std.specs.Prelude.{◌≡◌, IsTrue, length};
ghost use Rattle.league_core.specs.game.ClubSets.{clubs_in};
ghost use Rattle.league_core.specs.search.SureOrder.{sure_in};
ghost use Rattle.tie_bound.specs.inside.Boxes.{options_in_box, have_one_outcome};
ghost use Rattle.tie_bound.specs.inside.Answers.{AreLevelIn, StepDecidesFor};

use crate::answer_sets::Answers;
use crate::steps::{take_last, take_records};
use crate::taken::leave_open;
use league_core::ClubSet;
use score_box::ZoneBox;

/// Takes the criteria within the group of all clubs that are level so far, the head-to-head first,
/// until no club that is asked for is level.
pub fn take_rounds(
    answers: Answers,
    zone_box: &ZoneBox,
    asked: ClubSet,
    group: ClubSet,
    club: u8,
) -> Answers
    requires outcomes { IsTrue (have_one_outcome zone_box.now) }
    requires level { AreLevelIn (length zone_box.now.sheet.clubs) answers (clubs_in group) }
    ensures { StepDecidesFor (clubs_in asked) (length zone_box.now.sheet.clubs)
        (λ rival. sure_in zone_box.now.sheet (options_in_box zone_box.now) (clubs_in group) rival
        club) answers result }
{
    let clubs = zone_box.sheet().clubs.len() as u8;
    let mut now = answers;
    let mut group = group;
    'smaller: for time in 0..group.len() {
        if group.intersection(asked).is_empty() {
            return now;
        }
        let taken = take_records(now, zone_box, group, club);
        if !taken.is_sure {
            return leave_open(taken.answers, group);
        }
        let level = taken.answers.those_level(clubs);
        if level.len() == group.len() {
            return take_last(taken.answers, zone_box, group, club);
        }
        now = taken.answers;
        group = level;
    }
    now
}
