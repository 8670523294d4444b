//! What puts a rival ahead of a club that it is level with on points, or behind it, and how much
//! that weighs.

use score_box::Totals;

/// What counts in the matches among a group.
#[derive(Clone, Copy, Debug, PartialEq, Eq)]
pub struct Record {
    points: i32,
    difference: i32,
    goals: i32,
}

impl Record {
    /// That of no match.
    pub const NONE: Record = Record {
        points: 0,
        difference: 0,
        goals: 0,
    };

    /// That of a row.
    pub fn of(row: &Totals) -> Record {
        Record {
            points: row.points,
            difference: row.difference,
            goals: row.goals,
        }
    }

    /// Both together.
    pub fn with(&self, other: &Record) -> Record {
        Record {
            points: self.points.wrapping_add(other.points),
            difference: self.difference.wrapping_add(other.difference),
            goals: self.goals.wrapping_add(other.goals),
        }
    }
}

/// Which of two clubs comes first, and the weight of the criterion that says so.
#[derive(Clone, Copy, Debug, PartialEq, Eq)]
pub struct Lead {
    /// The rival comes first.
    pub is_ahead: bool,
    pub weight: u32,
}

impl Lead {
    // The greater number comes first.
    fn by(rival: i32, own: i32, weight: u32) -> Option<Lead> {
        if rival == own {
            return None;
        }
        Some(Lead {
            is_ahead: own < rival,
            weight,
        })
    }

    /// By points, difference and goals in the matches among a group; none where these are level.
    pub fn in_group(rival: &Record, own: &Record) -> Option<Lead> {
        Lead::by(rival.points, own.points, 300)
            .or(Lead::by(rival.difference, own.difference, 200))
            .or(Lead::by(rival.goals, own.goals, 190))
    }

    /// By difference and goals over all matches; none where these are level.
    pub fn in_goals(rival: &Totals, own: &Totals) -> Option<Lead> {
        Lead::by(rival.difference, own.difference, 100).or(Lead::by(rival.goals, own.goals, 90))
    }

    /// By the sums over all matches, then the lower rank; none where all are level.
    pub fn in_all(rival: &Totals, own: &Totals, ranks: (u16, u16)) -> Option<Lead> {
        let (rival_rank, own_rank) = ranks;
        Lead::by(rival.difference, own.difference, 100)
            .or(Lead::by(rival.goals, own.goals, 70))
            .or(Lead::by(rival.away_goals, own.away_goals, 60))
            .or(Lead::by(rival.wins, own.wins, 50))
            .or(Lead::by(rival.away_wins, own.away_wins, 40))
            .or(Lead::by(i32::from(own_rank), i32::from(rival_rank), 30))
    }
}
