//! What the question's own club can have in its window.

ghost use Rattle.std.specs.Prelude.{◌≡◌, ◌<◌, ◌≤ℤ◌, neg_ℤ, length};
ghost use Rattle.league_core.specs.game.Limits.{most_points};
ghost use Rattle.league_core.specs.search.PointRanges.{own_least, own_most};
ghost use Rattle.score_box.specs.inside.Points.{most_taken_off};
ghost use Rattle.score_box.specs.inside.ZoneBoxViews.{HasFinish};

use crate::zone_box::ZoneBox;
use league_core::Question;

/// The most points of the question's club, deductions taken off, and no more than the window's:
/// perhaps negative.
pub fn own_most(zone_box: &ZoneBox, question: &Question) -> i32
    requires has_finish { HasFinish zone_box.now }
    requires of_sheet { question.now.club < length zone_box.now.sheet.clubs }
    ensures value { result
        ≡ own_most zone_box.now.sheet zone_box.now.season question.now zone_box.now.zone }
    ensures within { result ≤ℤ most_points }
{
    question.high.min(zone_box.high(question.club))
}

/// The least points of the question's club, deductions taken off, and no fewer than the window's:
/// perhaps negative.
pub fn own_least(zone_box: &ZoneBox, question: &Question) -> i32
    requires has_finish { HasFinish zone_box.now }
    requires of_sheet { question.now.club < length zone_box.now.sheet.clubs }
    ensures value { result
        ≡ own_least zone_box.now.sheet zone_box.now.season question.now zone_box.now.zone }
    ensures within { neg_ℤ most_taken_off ≤ℤ result }
{
    question.low.max(zone_box.low(question.club))
}
