//! The points of all clubs at once: each match is looked at for its two clubs alone.

ghost use Rattle.std.specs.Prelude.{◌≡◌, ◌≢◌, ◌<◌, ℕ, pos, length};
ghost use Rattle.near_bound.specs.inside.AllEnds.{AddsAtBoth, AreAllWon, AreAllEnds};
ghost use Rattle.near_bound.specs.inside.Points.{AreEndsWithin, ends_listed};
ghost use Rattle.near_bound.specs.inside.ZonesLeft.{IsZoneLeft};

use crate::match_left::MatchLeft;
use crate::points::{PointEnds, points_left};
use crate::zone_left::ZoneLeft;
use league_core::Fixture;

/// The points of each club in the zone, deductions taken off. Clubs count from 0.
pub fn all_ends(left: &ZoneLeft) -> [PointEnds; 32]
    requires left { IsZoneLeft left.now }
    ensures long { length result ≡ 32 }
    ensures ends { AreAllEnds left.now result }
{
    let won = all_won(left);
    let mut ends = [PointEnds::NONE; 32];
    for club in 0..left.sheet.clubs.len() {
        ends[club] = won[club].less(left.season.deducted(club as u8));
    }
    ends
}

// Their match points.
fn all_won(left: &ZoneLeft) -> [PointEnds; 32]
    requires left { IsZoneLeft left.now }
    ensures { AreAllWon left.now result }
{
    let fixtures = left.sheet.fixtures.as_slice();
    let mut won = [PointEnds::NONE; 32];
    for i in 0..fixtures.len() {
        add_match(&mut won, &left.matches[i], fixtures[i]);
    }
    won
}

fn add_match(won: &mut [PointEnds; 32], left: &MatchLeft, fixture: Fixture)
    requires home { fixture.home < 32 }
    requires away { fixture.away < 32 }
    requires apart { fixture.home ≢ fixture.away }
    requires near { (club : ℕ) → AreEndsWithin (pos 100000) (ends_listed won.old club) }
    ensures { AddsAtBoth left.now fixture won.old won.new }
{
    let home = won[fixture.home as usize].plus(points_left(left, fixture, fixture.home));
    let away = won[fixture.away as usize].plus(points_left(left, fixture, fixture.away));
    won[fixture.home as usize] = home;
    won[fixture.away as usize] = away;
}
