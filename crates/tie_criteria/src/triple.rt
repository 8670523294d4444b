//! The head-to-head record of a club in a group of clubs.

ghost use Rattle.std.specs.Prelude.{◌≡◌, Bool};
ghost use Rattle.league_core.specs.game.Seasons.{IsLeague};
ghost use Rattle.league_core.specs.game.HeadToHead.{head_to_head_of, by_first_difference};
ghost use Rattle.league_core.specs.game.ClubSets.{clubs_in};
ghost use Rattle.tie_criteria.specs.inside.Parts.{triple_parts, goal_parts};
ghost use Rattle.tie_criteria.specs.inside.Records.{record_at, IsBounded, GrowsBy};

use crate::measure::{Matches, match_points};
use crate::sums::sums_of;
use league_core::{ClubSet, Season, Sheet};
use std::cmp::Ordering;

/// Points, goal difference and goals scored in the matches with both ends in a group.
#[derive(Clone, Copy, Debug, PartialEq, Eq)]
pub struct Triple {
    pub points: i32,
    pub difference: i32,
    pub scored: i32,
}

impl Triple {
    /// The record of a club without a match.
    pub(crate) const NONE: Triple = Triple {
        points: 0,
        difference: 0,
        scored: 0,
    };

    /// The record with one match more.
    pub(crate) fn plus(&self, scored: u8, conceded: u8) -> Triple
        requires { IsBounded 1000000 self.now }
        ensures { (away : Bool) → GrowsBy (λ worth. worth scored conceded away) self.now result }
    {
        Triple {
            points: self.points + match_points(scored, conceded),
            difference: self.difference + i32::from(scored) - i32::from(conceded),
            scored: self.scored + i32::from(scored),
        }
    }

    /// `Less` if this triple is the greater, so that it comes first.
    pub fn order(&self, other: &Triple) -> Ordering
        ensures { result ≡ by_first_difference (triple_parts self.now) (triple_parts other.now) }
    {
        other
            .points
            .cmp(&self.points)
            .then(self.order_by_goals(other))
    }

    /// `Less` if this triple has the greater difference, or else the more goals.
    pub fn order_by_goals(&self, other: &Triple) -> Ordering
        ensures { result ≡ by_first_difference (goal_parts self.now) (goal_parts other.now) }
    {
        let by_scored = other.scored.cmp(&self.scored);
        other.difference.cmp(&self.difference).then(by_scored)
    }
}

/// The record of a club, by its number from 0, in the matches of the group that are played. A club
/// that is not of the group has none of them: its record is all 0.
pub fn triple_of(sheet: &Sheet, season: &Season, group: ClubSet, club: u8) -> Triple
    requires league { IsLeague sheet.now season.now }
    ensures { triple_parts result ≡ head_to_head_of sheet.now season.now (clubs_in group) club }
{
    let sums = sums_of(sheet, season, Matches::Among(group), club);
    Triple {
        points: sums.points,
        difference: sums.difference,
        scored: sums.goals,
    }
}

/// The record at the club's number; past the last one the record of a club without a match.
pub(crate) fn triple_at(triples: &[Triple], club: u8) -> Triple
    ensures { result ≡ record_at triples.now club }
{
    triples.get(club as usize).copied().unwrap_or(Triple::NONE)
}
