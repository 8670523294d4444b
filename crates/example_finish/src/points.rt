//! The points of the clubs in the proposed finish, which come before all sums of goals.

ghost use Rattle.std.specs.Prelude.{◌≡◌, ℕ, ◌<◌, pos, ◌+ℤ◌, ◌≤ℤ◌, length};
ghost use Rattle.std.specs.Prelude.{if◌then◌else◌, ◌==◌};
ghost use Rattle.score_box.specs.inside.Ends.{end_at};
ghost use Rattle.example_finish.specs.inside.ProposalViews.{sheet_asked, season_asked};
ghost use Rattle.example_finish.specs.inside.ProposalViews.{finish_asked};
ghost use Rattle.example_finish.specs.inside.ProposedPoints.{ArePointsOver, ArePointsNear};
ghost use Rattle.example_finish.specs.inside.ProposedPoints.{points_proposed};

use crate::proposed::Proposed;
use score_box::ZoneBox;

impl<'a> Proposed<'a> {
    /// The points of each club, less those taken off, by the clubs' numbers.
    pub fn points_over(&self) -> [i32; 24]
        ensures points { ArePointsOver (sheet_asked self.now) (finish_asked self.now) result }
        ensures near { ArePointsNear 1000000 result }
        ensures long { length result ≡ 24 }
    {
        let mut points = points_so_far(self.zone_box());
        self.add_points(&mut points);
        points
    }

    // Adds the points of the matches that are not played.
    fn add_points(&self, points: &mut [i32])
        requires long { length points.old ≡ 24 }
        requires near { ArePointsNear 200000 points.old }
        requires played { ArePointsOver (sheet_asked self.now) (season_asked self.now)
            points.old }
        ensures points { ArePointsOver (sheet_asked self.now) (finish_asked self.now) points.new }
        ensures near { ArePointsNear 1000000 points.new }
    {
        let _season = self.season();
        let _sheet = self.sheet();
        let unplayed = self.zone_box.unplayed();
        for i in 0..unplayed.len() {
            self.add_points_of(points, unplayed[i]);
        }
    }

    // Adds the points of one match.
    fn add_points_of(&self, points: &mut [i32], fixture: u16)
        requires in_range { fixture < length (season_asked self.now).scores }
        requires long { length points.old ≡ 24 }
        requires near { ArePointsNear 1000000 points.old }
        ensures { (club : ℕ) → end_at points.new club
            ≡ (end_at points.old club +ℤ points_proposed self.now club fixture) }
    {
        let sides = self.sides(fixture);
        let outcome = self.outcome(fixture);
        raise(points, sides.home, outcome.home_points());
        raise(points, sides.away, outcome.away_points());
    }
}

// Adds points to those of one club.
fn raise(points: &mut [i32], club: u8, by: i32)
    requires in_range { club < length points.old }
    requires near { ArePointsNear 2000000 points.old }
    requires small { (pos 0 ≤ℤ by) × (by ≤ℤ pos 3) }
    ensures { (other : ℕ) → end_at points.new other
        ≡ (end_at points.old other +ℤ (if club == other then by else pos 0)) }
{
    points[club as usize] += by;
}

// The points of each club from the matches that are played.
fn points_so_far(zone_box: &ZoneBox) -> [i32; 24]
    ensures points { ArePointsOver zone_box.now.sheet zone_box.now.season result }
    ensures near { ArePointsNear 200000 result }
    ensures long { length result ≡ 24 }
{
    let _played = zone_box.season().scores();
    let mut points = no_points();
    for club in 0..zone_box.sheet().clubs.len() as u8 {
        points[club as usize] = zone_box.points_so_far(club);
    }
    points
}

// A table of clubs without a point.
fn no_points() -> [i32; 24]
    ensures none { (club : ℕ) → end_at result club ≡ pos 0 }
    ensures long { length result ≡ 24 }
{
    [0; 24]
}
