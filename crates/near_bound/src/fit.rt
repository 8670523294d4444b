//! The scores that are fit for a club which is to end on a number of points.

ghost use Rattle.std.specs.Prelude.{◌≡◌, true, ◌&&◌, ◌+ℤ◌, ◌-ℤ◌, List, pos};
ghost use Rattle.league_core.specs.declared.season.Score.{Score};
ghost use Rattle.near_laws.specs.Fits.{can_reach};
ghost use Rattle.near_bound.specs.inside.MatchesLeft.{IsLeftOf, is_score_left, are_goals_left};
ghost use Rattle.near_bound.specs.inside.MatchesLeft.{LeavesOneAtMost};
ghost use Rattle.near_bound.specs.inside.Points.{range_of_ends, by_outcome, AreEndsOfClub};
ghost use Rattle.near_bound.specs.inside.Points.{AreEndsWithin};
ghost use Rattle.near_bound.specs.inside.Points.{fit_by, IsUsual, IsPoints};

use crate::match_left::MatchLeft;
use crate::points::{PointEnds, points_left};
use league_core::Fixture;

/// Of what is left of a match the scores with which the club can still have the points, if all its
/// matches together leave it these.
pub fn fit(left: &MatchLeft, fixture: Fixture, club: u8, all: PointEnds, points: i32) -> MatchLeft
    requires all { AreEndsOfClub all }
    requires points { IsPoints points }
    ensures { (options : List Score) → IsLeftOf left.now options
        → IsLeftOf result (fit_by (range_of_ends all) points club fixture options) }
{
    if left.has_one_at_most() {
        let stays = all.has(points);
        return left.kept(stays, stays, stays);
    }
    let here = points_left(left, fixture, club);
    let drawn = reaches(all, here, 1, points);
    let lost = reaches(all, here, 0, points);
    if fixture.home == club {
        left.kept(reaches(all, here, 3, points), drawn, lost)
    } else if fixture.away == club {
        left.kept(lost, drawn, reaches(all, here, 3, points))
    } else {
        left.kept(lost, lost, lost)
    }
}

// With so many points here the other matches can bring the club to the points.
fn reaches(all: PointEnds, here: PointEnds, given: u8, points: i32) -> bool
    requires all { AreEndsOfClub all }
    requires here { AreEndsWithin (pos 3) here }
    requires points { IsPoints points }
    ensures { result ≡ can_reach (range_of_ends all) (range_of_ends here) (pos given) points }
{
    let low = exchanged(all.least, here.least, given);
    let high = exchanged(all.most, here.most, given);
    low <= points && points <= high
}

// Points with these in the place of those.
fn exchanged(all: i32, here: i32, given: u8) -> i32
    requires all { IsUsual all }
    requires here { IsUsual here }
    ensures { result ≡ (all -ℤ here +ℤ pos given) }
{
    all - here + i32::from(given)
}

impl MatchLeft {
    /// No two scores are left, as in a match that is played.
    pub(crate) fn has_one_at_most(&self) -> bool
        ensures { result ≡ true → LeavesOneAtMost self.now }
    {
        self.home_least == self.home_most && self.away_least == self.away_most
    }

    // Without the outcomes that are not kept.
    fn kept(&self, home_win: bool, draw: bool, away_win: bool) -> MatchLeft
        ensures { (score : Score) → is_score_left result score
            ≡ (is_score_left self.now score && by_outcome home_win draw away_win score) }
    {
        MatchLeft {
            home_win: self.home_win && home_win,
            draw: self.draw && draw,
            away_win: self.away_win && away_win,
            home_least: self.home_least,
            home_most: self.home_most,
            away_least: self.away_least,
            away_most: self.away_most,
        }
    }

    /// The scores that are left here and there.
    pub(crate) fn shared(&self, other: &MatchLeft) -> MatchLeft
        ensures { (score : Score) → is_score_left result score
            ≡ (is_score_left self.now score && is_score_left other.now score) }
    {
        let kept = self.kept(other.home_win, other.draw, other.away_win);
        kept.within_goals(other)
    }

    // The scores with goals that are left there too.
    fn within_goals(&self, other: &MatchLeft) -> MatchLeft
        ensures { (score : Score) → is_score_left result score
            ≡ (is_score_left self.now score && are_goals_left other.now score) }
    {
        MatchLeft {
            home_win: self.home_win,
            draw: self.draw,
            away_win: self.away_win,
            home_least: self.home_least.max(other.home_least),
            home_most: self.home_most.min(other.home_most),
            away_least: self.away_least.max(other.away_least),
            away_most: self.away_most.min(other.away_most),
        }
    }
}
