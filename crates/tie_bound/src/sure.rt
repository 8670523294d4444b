//! What is sure of one rival against a club.

ghost use Rattle.std.specs.Prelude.{◌≡◌, ◌<◌, IsTrue, length};
ghost use Rattle.league_core.specs.search.SureOrder.{sure_order};
ghost use Rattle.tie_bound.specs.inside.Boxes.{have_one_outcome};

use crate::against::{answers_against, answers_on_points};
use league_core::{ClubSet, Sure};
use score_box::ZoneBox;

/// Whether the rival is surely before the club, surely behind it, surely left to lots with it, or
/// none of these. Each fixture has one outcome: `has_one_outcome` says so.
pub fn judge(zone_box: &ZoneBox, club: u8, rival: u8) -> Sure
    requires outcomes { IsTrue (have_one_outcome zone_box.now) }
    requires rival { rival < length zone_box.now.sheet.clubs }
    ensures { result
        ≡ sure_order zone_box.now.sheet zone_box.now.season zone_box.now.zone rival club }
{
    let _sheet = zone_box.sheet();
    let points = answers_on_points(zone_box, club);
    let answers = answers_against(zone_box, points, ClubSet::single(rival), club);
    answers.of(rival)
}
