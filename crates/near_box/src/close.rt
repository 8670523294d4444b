//! Rivals that one match may bring level with the club. What a choice makes of them is in no
//! clause.

ghost use Rattle.std.specs.Prelude.{◌<◌, true, ◌≡◌, ℕ, IsTrue, length};
ghost use Rattle.league_core.specs.game.ClubSets.{clubs_in};
ghost use Rattle.league_core.specs.game.Questions.{IsQuestionOf};
ghost use Rattle.league_core.specs.game.Sums.{has_club};
ghost use Rattle.league_core.specs.search.Zones.{is_zone_of};
ghost use Rattle.score_box.specs.inside.ZoneBoxViews.{HasFinish};
ghost use Rattle.near_box.specs.inside.Pressed.{AreClubsOfBox};

use crate::pressed::{with_at_least, with_at_most};
use league_core::{Claim, ClubSet, Question};
use score_box::{ZoneBox, own_least, own_most};

/// By how many points a match can move a bound of a club.
const MOST_OF_A_MATCH: i32 = 3;

/// Those marked after the club that a match may bring to the most that it can have, if it is to end
/// inside the line: there a choice asks for them.
pub fn close_behind(zone_box: &ZoneBox, question: &Question) -> ClubSet
    requires has_finish { HasFinish zone_box.now }
    requires of_sheet { IsQuestionOf zone_box.now.sheet question.now }
    requires of_zone { IsTrue (is_zone_of zone_box.now.sheet zone_box.now.zone) }
    ensures { AreClubsOfBox zone_box.now result }
{
    match question.claim {
        Claim::Inside => {
            let points = own_most(zone_box, question);
            let near = with_at_least(
                zone_box,
                zone_box.after(),
                points.wrapping_sub(MOST_OF_A_MATCH),
            );
            near.without(with_at_least(zone_box, zone_box.after(), points))
        }
        Claim::Outside => ClubSet::empty(),
    }
}

/// Those marked before it that a match may bring to the least that it can have, if it is to end
/// outside.
pub fn close_ahead(zone_box: &ZoneBox, question: &Question) -> ClubSet
    requires has_finish { HasFinish zone_box.now }
    requires of_sheet { IsQuestionOf zone_box.now.sheet question.now }
    requires of_zone { IsTrue (is_zone_of zone_box.now.sheet zone_box.now.zone) }
    ensures { AreClubsOfBox zone_box.now result }
{
    match question.claim {
        Claim::Inside => ClubSet::empty(),
        Claim::Outside => {
            let points = own_least(zone_box, question);
            let near = with_at_most(
                zone_box,
                zone_box.before(),
                points.wrapping_add(MOST_OF_A_MATCH),
            );
            near.without(with_at_most(zone_box, zone_box.before(), points))
        }
    }
}
