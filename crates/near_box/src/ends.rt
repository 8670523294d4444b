//! The points of all clubs, which the box keeps.

ghost use Rattle.std.specs.Prelude.{◌<◌, length};
ghost use Rattle.near_bound.specs.declared.zone_left.ZoneLeft as lefts;
ghost use Rattle.near_bound.specs.inside.AllEnds.{AreAllEnds};
ghost use Rattle.score_box.specs.inside.ZoneBoxViews.{HasFinish};
ghost use Rattle.near_box.specs.inside.ZoneMatches.{IsOfBox, IsKeptOf};

use near_bound::PointEnds;
use score_box::ZoneBox;

/// Each club's least and most points, at its number.
pub fn ends_of(zone_box: &ZoneBox) -> [PointEnds; 32]
    requires { HasFinish zone_box.now }
    ensures { (left : lefts.ZoneLeft) → IsOfBox zone_box.now left → AreAllEnds left result }
{
    let _scores = zone_box.season().scores();
    let mut ends = [PointEnds::NONE; 32];
    for club in 0..zone_box.sheet().clubs.len() {
        ends[club] = ends_at(zone_box, club as u8);
    }
    ends
}

// Those of one club.
fn ends_at(zone_box: &ZoneBox, club: u8) -> PointEnds
    requires has_finish { HasFinish zone_box.now }
    requires in_range { club < length zone_box.now.sheet.clubs }
    ensures { IsKeptOf zone_box.now club result }
{
    PointEnds {
        least: zone_box.low(club),
        most: zone_box.high(club),
    }
}
