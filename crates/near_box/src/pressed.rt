//! The rivals that are pressed: without that the near reason does not hold by them. Both ends of a
//! club's points are kept in the box, so that no match is looked at.

ghost use Rattle.std.specs.Prelude.{◌≡◌, ◌<◌, ◌&&◌, ℕ, int_le, true, [], ◌∷◌, length, IsTrue};
ghost use Rattle.league_core.specs.game.ClubSets.{clubs_in};
ghost use Rattle.league_core.specs.game.Questions.{IsQuestionOf};
ghost use Rattle.league_core.specs.game.Sums.{has_club};
ghost use Rattle.league_core.specs.search.PointRanges.{least_points_of, most_points_of};
ghost use Rattle.league_core.specs.search.Zones.{is_zone_of};
ghost use Rattle.near_laws.specs.Near.{is_pressed_from_behind, is_pressed_from_ahead};
ghost use Rattle.score_box.specs.inside.Boxes.{IsSetOf};
ghost use Rattle.score_box.specs.inside.ZoneBoxViews.{HasFinish};
ghost use Rattle.near_box.specs.inside.Pressed.{is_pressed_in, AreClubsOfBox};

use league_core::{ClubSet, Question};
use score_box::{ZoneBox, own_least, own_most};

/// Those marked after the club that have at the least what it has at the most.
pub fn pressed_from_behind(zone_box: &ZoneBox, question: &Question) -> ClubSet
    requires has_finish { HasFinish zone_box.now }
    requires of_sheet { IsQuestionOf zone_box.now.sheet question.now }
    requires of_zone { IsTrue (is_zone_of zone_box.now.sheet zone_box.now.zone) }
    ensures { IsSetOf result (is_pressed_from_behind zone_box.now.sheet zone_box.now.season
        question.now zone_box.now.zone) }
{
    with_at_least(zone_box, zone_box.after(), own_most(zone_box, question))
}

/// Those marked before it that have at the most what it has at the least.
pub fn pressed_from_ahead(zone_box: &ZoneBox, question: &Question) -> ClubSet
    requires has_finish { HasFinish zone_box.now }
    requires of_sheet { IsQuestionOf zone_box.now.sheet question.now }
    requires of_zone { IsTrue (is_zone_of zone_box.now.sheet zone_box.now.zone) }
    ensures { IsSetOf result (is_pressed_from_ahead zone_box.now.sheet zone_box.now.season
        question.now zone_box.now.zone) }
{
    with_at_most(zone_box, zone_box.before(), own_least(zone_box, question))
}

// The clubs of the set that have so many points or more.
pub(crate) fn with_at_least(zone_box: &ZoneBox, set: ClubSet, points: i32) -> ClubSet
    requires has_finish { HasFinish zone_box.now }
    requires of_sheet { AreClubsOfBox zone_box.now set }
    ensures { (rival : ℕ) → has_club (clubs_in result) rival ≡ (has_club (clubs_in set) rival
        && int_le points (least_points_of zone_box.now.sheet zone_box.now.season zone_box.now.zone
        (rival ∷ []))) }
{
    set.keep(|rival| has_at_least(zone_box, rival, points))
}

fn has_at_least(zone_box: &ZoneBox, rival: u8, points: i32) -> bool
    requires has_finish { HasFinish zone_box.now }
    requires in_range { rival < length zone_box.now.sheet.clubs }
    ensures { result ≡ int_le points (least_points_of zone_box.now.sheet zone_box.now.season
        zone_box.now.zone (rival ∷ [])) }
{
    points <= zone_box.low(rival)
}

// The clubs of the set that have so many points or fewer.
pub(crate) fn with_at_most(zone_box: &ZoneBox, set: ClubSet, points: i32) -> ClubSet
    requires has_finish { HasFinish zone_box.now }
    requires of_sheet { AreClubsOfBox zone_box.now set }
    ensures { (rival : ℕ) → has_club (clubs_in result) rival ≡ (has_club (clubs_in set) rival
        && int_le (most_points_of zone_box.now.sheet zone_box.now.season zone_box.now.zone
        (rival ∷ [])) points) }
{
    set.keep(|rival| has_at_most(zone_box, rival, points))
}

fn has_at_most(zone_box: &ZoneBox, rival: u8, points: i32) -> bool
    requires has_finish { HasFinish zone_box.now }
    requires in_range { rival < length zone_box.now.sheet.clubs }
    ensures { result ≡ int_le (most_points_of zone_box.now.sheet zone_box.now.season
        zone_box.now.zone (rival ∷ [])) points }
{
    zone_box.high(rival) <= points
}
