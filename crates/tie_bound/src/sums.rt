//! The ranges of a club's six sums.

ghost use Rattle.std.specs.Prelude.{◌≡◌, ◌<◌, pos, length};
ghost use Rattle.league_core.specs.search.PointRanges.{one_value, added};
ghost use Rattle.tie_criteria.specs.declared.measure.Measure.{Measure};
ghost use Rattle.tie_bound.specs.inside.IntRanges.{IsRangeNear};
ghost use Rattle.score_box.specs.inside.Totals.{total_in};
ghost use Rattle.tie_bound.specs.inside.Rows.{column_of};
ghost use Rattle.tie_bound.specs.inside.Sums.{range_by, sums_at};

use crate::int_range::IntRange;
use score_box::Totals;

/// What matches can add up to for a club, by each of the six measures.
#[derive(Clone, Copy)]
pub struct Sums {
    pub points: IntRange,
    pub difference: IntRange,
    pub goals: IntRange,
    pub away_goals: IntRange,
    pub wins: IntRange,
    pub away_wins: IntRange,
}

impl Sums {
    const NOTHING: IntRange = IntRange {
        least: 0,
        greatest: 0,
    };

    /// The sums of a club without a match.
    pub const NONE: Sums = Sums {
        points: Sums::NOTHING,
        difference: Sums::NOTHING,
        goals: Sums::NOTHING,
        away_goals: Sums::NOTHING,
        wins: Sums::NOTHING,
        away_wins: Sums::NOTHING,
    };

    /// Sums that are known: what these totals are.
    pub fn only(totals: &Totals) -> Sums
        ensures { (measure : Measure) → range_by result measure
            ≡ one_value (total_in totals.now (column_of measure)) }
    {
        Sums {
            points: IntRange::only(totals.points),
            difference: IntRange::only(totals.difference),
            goals: IntRange::only(totals.goals),
            away_goals: IntRange::only(totals.away_goals),
            wins: IntRange::only(totals.wins),
            away_wins: IntRange::only(totals.away_wins),
        }
    }

    /// The sums with those of a match more.
    pub fn plus(&self, other: &Sums) -> Sums
        requires near { (measure : Measure) → IsRangeNear 10000000 (range_by self.now measure) }
        requires other_near { (measure : Measure)
            → IsRangeNear 10000000 (range_by other.now measure) }
        ensures { (measure : Measure) → range_by result measure
            ≡ added (range_by self.now measure) (range_by other.now measure) }
    {
        Sums {
            points: self.points.plus(other.points),
            difference: self.difference.plus(other.difference),
            goals: self.goals.plus(other.goals),
            away_goals: self.away_goals.plus(other.away_goals),
            wins: self.wins.plus(other.wins),
            away_wins: self.away_wins.plus(other.away_wins),
        }
    }
}

static NO_SUMS: Sums = Sums::NONE;

/// The sums at the club's number; past the last one those of a club without a match.
pub fn sums_at(table: &[Sums], club: u8) -> &Sums
    ensures { result.now ≡ sums_at table.now club }
{
    match table.get(club as usize) {
        Some(sums) => sums,
        None => &NO_SUMS,
    }
}

/// The sums at the number of a club that the table has.
pub fn row(table: &[Sums], club: u8) -> &Sums
    requires { club < length table.now }
    ensures { result.now ≡ sums_at table.now club }
{
    &table[club as usize]
}
