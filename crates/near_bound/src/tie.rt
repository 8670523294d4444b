//! A number of points on which clubs of a zone may end level.

ghost use Rattle.std.specs.Prelude.{◌≡◌, ◌<◌, true, List, length, slice_index_or, [], ◌∷◌};
ghost use Rattle.league_core.specs.declared.zone.Literal.{Literal};
ghost use Rattle.near_laws.specs.Fits.{is_surely_on, fit_options};
ghost use Rattle.near_bound.specs.inside.MatchesLeft.{IsLeftOf};
ghost use Rattle.near_bound.specs.inside.Points.{IsPoints};
ghost use Rattle.near_bound.specs.inside.AllEnds.{AreAllEnds};
ghost use Rattle.near_bound.specs.inside.ZonesLeft.{IsZoneLeft, StandsFor};
ghost use Rattle.league_core.specs.search.Options.{has_finish};
ghost use Rattle.near_bound.specs.inside.Ties.{IsTie, IsTieIn, range_has_points};
ghost use Rattle.near_bound.specs.inside.FitEnds.{IsRoomyClub, IsIdleClub};

use crate::fit::fit;
use crate::match_left::MatchLeft;
use crate::points::PointEnds;
use crate::zone_left::ZoneLeft;

/// The points that each club can have in a zone, and a number of points.
#[derive(Clone, Copy)]
pub struct Tie<'a> {
    pub left: &'a ZoneLeft<'a>,
    pub points: i32,
    pub ends: [PointEnds; 32],
}

impl<'a> Tie<'a> {
    pub fn new(left: &'a ZoneLeft<'a>, points: i32, ends: &[PointEnds; 32]) -> Tie<'a>
        requires left { IsZoneLeft left.now }
        requires ends { AreAllEnds left.now ends.now }
        requires points { IsPoints points }
        ensures tie { IsTie result }
        ensures left { result.left.now ≡ left.now }
        ensures points { result.points ≡ points }
        ensures is { (zone : List Literal) → StandsFor left.now zone
            → has_finish left.now.sheet.now left.now.season.now zone ≡ true
            → IsTieIn result zone }
    {
        Tie {
            left,
            points,
            ends: *ends,
        }
    }

    /// The scores of a fixture that are fit for a club.
    pub fn fit(&self, fixture: usize, club: u8) -> MatchLeft
        requires tie { IsTie self.now }
        requires of_sheet { fixture < length self.now.left.now.sheet.now.fixtures }
        requires in_range { club < length self.now.left.now.sheet.now.clubs }
        ensures { (zone : List Literal) → IsTieIn self.now zone → IsLeftOf result
            (slice_index_or (fit_options self.now.left.now.sheet.now self.now.left.now.season.now
            zone self.now.points (club ∷ [])) fixture []) }
    {
        if self.is_roomy(club) {
            return self.left.matches[fixture];
        }
        let match_of = self.left.sheet.fixtures.as_slice()[fixture];
        fit(
            &self.left.matches[fixture],
            match_of,
            club,
            self.ends[club as usize],
            self.points,
        )
    }

    /// The club's points can be these, as far as its range tells.
    pub fn has_in_range(&self, club: u8) -> bool
        requires tie { IsTie self.now }
        requires in_range { club < length self.now.left.now.sheet.now.clubs }
        ensures { result ≡ range_has_points self.now club }
    {
        self.ends[club as usize].has(self.points)
    }

    /// The club has the points, whatever happens.
    pub fn is_surely_on(&self, club: u8) -> bool
        requires tie { IsTie self.now }
        requires in_range { club < length self.now.left.now.sheet.now.clubs }
        ensures { (zone : List Literal) → IsTieIn self.now zone
            → result ≡ is_surely_on self.now.left.now.sheet.now self.now.left.now.season.now zone
            self.now.points club }
    {
        let ends = self.ends[club as usize];
        ends.least == self.points && ends.most == self.points
    }

    /// The points are so far from both ends of the club's range that one match does not matter.
    pub fn is_roomy(&self, club: u8) -> bool
        requires tie { IsTie self.now }
        requires in_range { club < length self.now.left.now.sheet.now.clubs }
        ensures { result ≡ true → IsRoomyClub self.now club }
    {
        let ends = self.ends[club as usize];
        ends.least + 3 <= self.points && self.points <= ends.most - 3
    }

    /// The club does not play there, and its range has the points: all scores are fit for it.
    pub fn stays_out(&self, fixture: usize, club: u8) -> bool
        requires tie { IsTie self.now }
        requires of_sheet { fixture < length self.now.left.now.sheet.now.fixtures }
        requires in_range { club < length self.now.left.now.sheet.now.clubs }
        ensures { result ≡ true → IsIdleClub self.now fixture club }
    {
        let teams = self.match_of(fixture);
        if teams.home == club {
            return false;
        }
        if teams.away == club {
            return false;
        }
        self.has_in_range(club)
    }
}
