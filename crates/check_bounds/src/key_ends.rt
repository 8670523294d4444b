//! Both ends of a club's key: what its matches can add up to, one measure after the other.

ghost use Rattle.std.specs.Prelude.{◌≡◌, ◌<◌, ◌≤ℤ◌, pos, neg_ℤ, length};
ghost use Rattle.league_core.specs.search.SureOrder.{range_over};
ghost use Rattle.check_bounds.specs.inside.Terms.{worth_by};
ghost use Rattle.check_bounds.specs.inside.IntRanges.{as_sum_range, IsRangeWithin};
ghost use Rattle.check_bounds.specs.inside.Cells.{FitScoreDomains};
ghost use Rattle.check_bounds.specs.inside.KeysOver.{AreEndsOver};

use crate::cells::Cells;
use crate::compare::range_at;
use crate::int_range::IntRange;
use crate::term::Measure;
use club_keys::{ClubKey, KeyEnds, rank_part};
use league_core::{ClubSet, Season};

/// What the cells leave of each part of a club's key at the least and at the most.
pub fn ends_over(season: &Season, cells: &Cells, club: u8) -> KeyEnds
    requires { club < length cells.now.sheet.clubs }
    ensures fit { FitScoreDomains cells.now.scopes cells.now.corners }
    ensures ends { AreEndsOver cells.now.sheet season.now cells.now.corners club result }
{
    let by_rank = rank_part(cells.sheet(), club);
    let points = cells.points(season, club);
    let difference = sum_of(cells, Measure::Difference, club);
    let goals = sum_of(cells, Measure::Goals, club);
    let away_goals = sum_of(cells, Measure::AwayGoals, club);
    let wins = sum_of(cells, Measure::Wins, club);
    let away_wins = sum_of(cells, Measure::AwayWins, club);
    KeyEnds {
        low: ClubKey {
            points: narrowed(points.least),
            difference: narrowed(difference.least),
            goals: narrowed(goals.least),
            away_goals: narrowed(away_goals.least),
            wins: narrowed(wins.least),
            away_wins: narrowed(away_wins.least),
            by_rank,
        },
        high: ClubKey {
            points: narrowed(points.greatest),
            difference: narrowed(difference.greatest),
            goals: narrowed(goals.greatest),
            away_goals: narrowed(away_goals.greatest),
            wins: narrowed(wins.greatest),
            away_wins: narrowed(away_wins.greatest),
            by_rank,
        },
    }
}

// A club's sum by one measure, over all its matches.
fn sum_of(cells: &Cells, kind: Measure, club: u8) -> IntRange
    requires { club < 32 }
    ensures range { as_sum_range result
        ≡ range_over (worth_by kind) cells.now.sheet cells.now.corners club }
    ensures near { IsRangeWithin 153000 result }
{
    let table = cells.sums_in(kind, ClubSet::single(club));
    range_at(&table, club)
}

// A number that is not far from 0, as a part of a key.
fn narrowed(number: i64) -> i32
    requires { (neg_ℤ (pos 200000) ≤ℤ number) × (number ≤ℤ pos 200000) }
    ensures value { result ≡ number }
    ensures near { (neg_ℤ (pos 200000) ≤ℤ result) × (result ≤ℤ pos 200000) }
{
    number as i32
}
