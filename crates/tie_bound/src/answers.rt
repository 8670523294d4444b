//! The answers by points: what is sure of each club against one club.

ghost use Rattle.std.specs.Prelude.{◌≡◌, ◌<◌, ◌-ℤ◌, ◌≤ℤ◌, pos, IsTrue, length, slice_index};
ghost use Rattle.league_core.specs.game.Sums.{worth_to};
ghost use Rattle.league_core.specs.search.PointRanges.{one_value, added};
ghost use Rattle.score_box.specs.inside.ZoneBoxViews.{HasFinish};
ghost use Rattle.tie_bound.specs.inside.IntRanges.{as_range, IsRangeNear};
ghost use Rattle.tie_bound.specs.inside.Boxes.{options_in_box, have_one_outcome};
ghost use Rattle.tie_bound.specs.inside.Tables.{AreSums};
ghost use Rattle.tie_bound.specs.inside.Answers.{AreByPoints};

use crate::answer_sets::Answers;
use crate::int_range::IntRange;
use crate::order::{by_range, by_value};
use crate::sums::{Sums, sums_at};
use league_core::Season;
use score_box::ZoneBox;

/// The answers of the sheet's clubs by points. Each club has one value of them, its least.
pub fn by_least(zone_box: &ZoneBox, club: u8) -> Answers
    requires outcomes { IsTrue (have_one_outcome zone_box.now) }
    requires has_finish { HasFinish zone_box.now }
    requires in_range { club < length zone_box.now.sheet.clubs }
    ensures { AreByPoints zone_box.now club result }
{
    let own = zone_box.low(club);
    let mut answers = Answers::open();
    for rival in 0..zone_box.sheet().clubs.len() as u8 {
        let answer = by_value(zone_box.low(rival), own);
        answers = answers.with(rival, answer);
    }
    answers
}

/// The answers by points: match points less deductions, which have one value each.
pub fn by_points(zone_box: &ZoneBox, overall: &[Sums], club: u8) -> Answers
    requires { AreSums worth_to zone_box.now.sheet.fixtures (options_in_box zone_box.now)
        overall.now }
    ensures { AreByPoints zone_box.now club result }
{
    let season = zone_box.season();
    let own = points_of(season, sums_at(overall, club).points, club);
    let mut answers = Answers::open();
    for rival in 0..zone_box.sheet().clubs.len() as u8 {
        let points = points_of(season, sums_at(overall, rival).points, rival);
        answers = answers.with(rival, by_range(points, own));
    }
    answers
}

// The club's points: these match points, less what is taken off.
fn points_of(season: &Season, won: IntRange, club: u8) -> IntRange
    requires { IsRangeNear 6000000 (as_range won) }
    ensures { as_range result ≡ added (as_range won)
        (one_value (pos 0 -ℤ pos (slice_index season.now.deductions club))) }
{
    won.plus(IntRange::only(-deducted(season.deductions(), club)))
}

// The points that are taken off the club, in match points.
fn deducted(deductions: &[u8], club: u8) -> i32
    ensures value { result ≡ pos (slice_index deductions.now club) }
    ensures small { result ≤ℤ pos 255 }
{
    i32::from(deductions.get(club as usize).copied().unwrap_or(0))
}
