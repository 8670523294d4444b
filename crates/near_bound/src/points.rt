//! The points that matches leave a club, at the least and at the most.

ghost use Rattle.std.specs.Prelude.{◌≡◌, ◌≤◌, ◌+ℤ◌, ◌-ℤ◌, ◌≤ℤ◌, ◌∷◌, [], List, pos, length};
ghost use Rattle.std.specs.Prelude.{◌<◌, true};
ghost use Rattle.league_core.specs.declared.season.Score.{Score};
ghost use Rattle.league_core.specs.declared.zone.Literal.{Literal};
ghost use Rattle.league_core.specs.search.PointRanges.{range_of, range_from, points_together};
ghost use Rattle.near_laws.specs.Fits.{range_in, leaves_points};
ghost use Rattle.near_bound.specs.inside.MatchesLeft.{IsLeftOf};
ghost use Rattle.near_bound.specs.inside.Points as ends;
ghost use Rattle.near_bound.specs.inside.Points.{range_of_ends, side_points, AreEndsWithin};
ghost use Rattle.near_bound.specs.inside.Points.{AreEndsOfClub};
ghost use Rattle.near_bound.specs.inside.ZonesLeft.{AreLeftOf, IsZoneLeft, StandsFor};
ghost use Rattle.near_bound.specs.inside.FitEnds.{AreFitEndsNear};

use crate::match_left::MatchLeft;
use crate::zone_left::ZoneLeft;
use league_core::{Fixture, Score};

/// The least and the most points.
#[derive(Clone, Copy, Debug)]
pub struct PointEnds {
    pub least: i32,
    pub most: i32,
}

impl PointEnds {
    /// Those of no match.
    pub const NONE: PointEnds = PointEnds { least: 0, most: 0 };

    pub(crate) fn plus(self, other: PointEnds) -> PointEnds
        requires near { AreEndsWithin (pos 100000) self }
        requires other_near { AreEndsWithin (pos 3) other }
        ensures least { result.least ≡ self.least +ℤ other.least }
        ensures most { result.most ≡ self.most +ℤ other.most }
    {
        PointEnds {
            least: self.least + other.least,
            most: self.most + other.most,
        }
    }

    /// The number lies between both ends.
    pub(crate) fn has(self, points: i32) -> bool
        ensures { result ≡ leaves_points (range_of_ends self) points }
    {
        self.least <= points && points <= self.most
    }

    /// With the new ones in the place of the old ones.
    pub(crate) fn exchanged(self, old: PointEnds, new: PointEnds) -> PointEnds
        requires near { AreFitEndsNear 90000 self }
        requires old_near { AreEndsWithin (pos 3) old }
        requires new_near { AreEndsWithin (pos 3) new }
        ensures least { result.least ≡ (self.least -ℤ old.least +ℤ new.least) }
        ensures most { result.most ≡ (self.most -ℤ old.most +ℤ new.most) }
    {
        PointEnds {
            least: self.least - old.least + new.least,
            most: self.most - old.most + new.most,
        }
    }

    pub(crate) fn less(self, off: u8) -> PointEnds
        requires { AreEndsWithin (pos 100000) self }
        ensures least { result.least ≡ self.least -ℤ pos off }
        ensures most { result.most ≡ self.most -ℤ pos off }
    {
        PointEnds {
            least: self.least - i32::from(off),
            most: self.most - i32::from(off),
        }
    }
}

/// The match points that a match leaves a club; none if it does not play in it.
pub fn points_left(left: &MatchLeft, fixture: Fixture, club: u8) -> PointEnds
    ensures range { (options : List Score) → IsLeftOf left.now options
        → range_of_ends result ≡ range_of (points_together (club ∷ []) fixture) options }
    ensures within { AreEndsWithin (pos 3) result }
{
    if fixture.home == club {
        points_of_side(left, false)
    } else if fixture.away == club {
        points_of_side(left, true)
    } else {
        PointEnds::NONE
    }
}

// Those that it leaves a side, by the outcomes that are left.
fn points_of_side(left: &MatchLeft, away: bool) -> PointEnds
    ensures range { (options : List Score) → IsLeftOf left.now options
        → range_of_ends result ≡ range_of (side_points away) options }
    ensures within { AreEndsWithin (pos 3) result }
{
    if away {
        ends_given(left.has_away_win(), left.has_draw(), left.has_home_win())
    } else {
        ends_given(left.has_home_win(), left.has_draw(), left.has_away_win())
    }
}

// The points of a win, a draw and a defeat, each of which may come or not.
fn ends_given(won: bool, drawn: bool, lost: bool) -> PointEnds
    ensures least { result.least ≡ ends.least_given won drawn lost }
    ensures most { result.most ≡ ends.most_given won drawn }
{
    PointEnds {
        least: least_given(won, drawn, lost),
        most: most_given(won, drawn),
    }
}

fn least_given(won: bool, drawn: bool, lost: bool) -> i32
    ensures { result ≡ ends.least_given won drawn lost }
{
    if lost {
        0
    } else if drawn {
        1
    } else if won {
        3
    } else {
        0
    }
}

fn most_given(won: bool, drawn: bool) -> i32
    ensures { result ≡ ends.most_given won drawn }
{
    if won {
        3
    } else if drawn {
        1
    } else {
        0
    }
}
