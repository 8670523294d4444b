//! A key, and how two of them compare.

ghost use Rattle.std.specs.Prelude.{◌≡◌};
ghost use Rattle.league_core.specs.game.HeadToHead.{by_first_difference};
ghost use Rattle.league_core.specs.search.Keys.{is_key_from};
ghost use Rattle.club_keys.specs.inside.KeyEnds.{key_parts};
ghost use Rattle.club_keys.specs.inside.KeyLaws.{is_key_above};

use std::cmp::Ordering;

/// The parts of a key in the order in which they decide. In each the greater number is the better.
#[derive(Clone, Copy, Debug, PartialEq, Eq)]
pub struct ClubKey {
    /// Points, less what is taken off: perhaps negative.
    pub points: i32,
    pub difference: i32,
    pub goals: i32,
    pub away_goals: i32,
    pub wins: i32,
    pub away_wins: i32,
    /// A thousand less the fixed rank.
    pub by_rank: i32,
}

impl ClubKey {
    /// `Less` if this key comes first: it has the greater number in the first part in which the two
    /// differ.
    pub fn order(&self, other: &ClubKey) -> Ordering
        ensures { result ≡ by_first_difference (key_parts self.now) (key_parts other.now) }
    {
        let by_rank = other.by_rank.cmp(&self.by_rank);
        let by_away_wins = other.away_wins.cmp(&self.away_wins).then(by_rank);
        let by_wins = other.wins.cmp(&self.wins).then(by_away_wins);
        let by_away_goals = other.away_goals.cmp(&self.away_goals).then(by_wins);
        let by_goals = other.goals.cmp(&self.goals).then(by_away_goals);
        let by_difference = other.difference.cmp(&self.difference).then(by_goals);
        other.points.cmp(&self.points).then(by_difference)
    }

    /// The key is as great as the least one, or greater.
    pub fn is_from(&self, least: &ClubKey) -> bool
        ensures { result ≡ is_key_from (key_parts least.now) (key_parts self.now) }
    {
        self.order(least).is_le()
    }

    /// The key is greater than the other.
    pub fn is_above(&self, other: &ClubKey) -> bool
        ensures { result ≡ is_key_above (key_parts other.now) (key_parts self.now) }
    {
        self.order(other).is_lt()
    }
}
