//! What matches can come to, by each of the six measures, at the least and at the most.

ghost use Rattle.std.specs.Prelude.{◌≡◌};
ghost use Rattle.std.specs.Int.{int_min, int_max};
ghost use Rattle.league_core.specs.search.PointRanges.{added};
ghost use Rattle.score_box.specs.inside.Totals.{Column, total_in};
ghost use Rattle.key_bounds.specs.inside.RowEnds.{ends_in, hull, AreEndsNear};

use score_box::Totals;

/// Two rows of totals: the least in each column, and the greatest.
#[derive(Clone, Copy)]
pub struct RowEnds {
    pub least: Totals,
    pub greatest: Totals,
}

impl RowEnds {
    /// The rows of no match.
    pub const NONE: RowEnds = RowEnds {
        least: Totals::NONE,
        greatest: Totals::NONE,
    };

    /// Both rows with those of a match more.
    pub fn plus(&self, other: &RowEnds) -> RowEnds
        requires near { AreEndsNear 1000000 self.now }
        requires other_near { AreEndsNear 255 other.now }
        ensures { (column : Column) → ends_in result column
            ≡ added (ends_in self.now column) (ends_in other.now column) }
    {
        RowEnds {
            least: self.least.with(&other.least),
            greatest: self.greatest.with(&other.greatest),
        }
    }

    /// The rows of matches that come to the one or to the other.
    pub fn around(&self, other: &RowEnds) -> RowEnds
        ensures { (column : Column) → ends_in result column
            ≡ hull (ends_in self.now column) (ends_in other.now column) }
    {
        RowEnds {
            least: lesser(&self.least, &other.least),
            greatest: greater(&self.greatest, &other.greatest),
        }
    }
}

// The lesser number in each column.
fn lesser(row: &Totals, other: &Totals) -> Totals
    ensures { (column : Column) → total_in result column
        ≡ int_min (total_in row.now column) (total_in other.now column) }
{
    Totals {
        points: row.points.min(other.points),
        difference: row.difference.min(other.difference),
        goals: row.goals.min(other.goals),
        away_goals: row.away_goals.min(other.away_goals),
        wins: row.wins.min(other.wins),
        away_wins: row.away_wins.min(other.away_wins),
    }
}

// The greater number in each column.
fn greater(row: &Totals, other: &Totals) -> Totals
    ensures { (column : Column) → total_in result column
        ≡ int_max (total_in row.now column) (total_in other.now column) }
{
    Totals {
        points: row.points.max(other.points),
        difference: row.difference.max(other.difference),
        goals: row.goals.max(other.goals),
        away_goals: row.away_goals.max(other.away_goals),
        wins: row.wins.max(other.wins),
        away_wins: row.away_wins.max(other.away_wins),
    }
}
