//! What decides among clubs that the head-to-head leaves level: the sums over all matches and the
//! rank.

ghost use Rattle.std.specs.Prelude.{◌≡◌, ◌<◌, length};
ghost use Rattle.league_core.specs.game.Seasons.{IsLeague};
ghost use Rattle.league_core.specs.game.HeadToHead.{by_first_difference};
ghost use Rattle.league_core.specs.game.Ahead.{overall_of};
ghost use Rattle.tie_criteria.specs.inside.Parts.{tail_parts};

use crate::measure::Matches;
use crate::sums::sums_of;
use league_core::{Season, Sheet};
use std::cmp::Ordering;

/// A club's sums over all matches, and its fixed rank.
#[derive(Clone, Copy, Debug, PartialEq, Eq)]
pub struct Tail {
    pub difference: i32,
    pub scored: i32,
    pub away_scored: i32,
    pub wins: i32,
    pub away_wins: i32,
    pub rank: u16,
}

impl Tail {
    /// The tail of a club without a match and without a rank.
    pub(crate) const NONE: Tail = Tail {
        difference: 0,
        scored: 0,
        away_scored: 0,
        wins: 0,
        away_wins: 0,
        rank: 0,
    };

    /// `Less` if this tail comes first: greater sums do, and then the lower rank.
    pub fn order(&self, other: &Tail) -> Ordering
        ensures { result ≡ by_first_difference (tail_parts self.now) (tail_parts other.now) }
    {
        let by_rank = self.rank.cmp(&other.rank);
        let by_away_wins = other.away_wins.cmp(&self.away_wins).then(by_rank);
        let by_wins = other.wins.cmp(&self.wins).then(by_away_wins);
        let by_away_scored = other.away_scored.cmp(&self.away_scored).then(by_wins);
        let by_scored = other.scored.cmp(&self.scored).then(by_away_scored);
        other.difference.cmp(&self.difference).then(by_scored)
    }
}

/// The sums of a club, by its number from 0, over all matches that are played, and its rank.
pub fn tail_of(sheet: &Sheet, season: &Season, club: u8) -> Tail
    requires league { IsLeague sheet.now season.now }
    requires in_range { club < length sheet.now.clubs }
    ensures { tail_parts result ≡ overall_of sheet.now season.now club }
{
    let sums = sums_of(sheet, season, Matches::All, club);
    Tail {
        difference: sums.difference,
        scored: sums.goals,
        away_scored: sums.away_goals,
        wins: sums.wins,
        away_wins: sums.away_wins,
        rank: sheet.clubs.as_slice()[club as usize].rank,
    }
}
