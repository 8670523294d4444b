//! Rows of sums that take matches, and give them back.
//!
//! Sums of 600 matches are far from any bound, so nothing here wraps; that it might needs no proof,
//! since no contract rests on a cost.

use league_core::Score;
use score_box::Totals;

/// Both rows together.
pub fn joined(one: &Totals, other: &Totals) -> Totals {
    Totals {
        points: one.points.wrapping_add(other.points),
        difference: one.difference.wrapping_add(other.difference),
        goals: one.goals.wrapping_add(other.goals),
        away_goals: one.away_goals.wrapping_add(other.away_goals),
        wins: one.wins.wrapping_add(other.wins),
        away_wins: one.away_wins.wrapping_add(other.away_wins),
    }
}

fn parted(one: &Totals, other: &Totals) -> Totals {
    Totals {
        points: one.points.wrapping_sub(other.points),
        difference: one.difference.wrapping_sub(other.difference),
        goals: one.goals.wrapping_sub(other.goals),
        away_goals: one.away_goals.wrapping_sub(other.away_goals),
        wins: one.wins.wrapping_sub(other.wins),
        away_wins: one.away_wins.wrapping_sub(other.away_wins),
    }
}

/// What a match is worth to the home side.
pub fn home_row(score: Score) -> Totals {
    Totals::NONE.plus(score.home, score.away, false)
}

/// What a match is worth to the away side.
pub fn away_row(score: Score) -> Totals {
    Totals::NONE.plus(score.away, score.home, true)
}

/// What another score of a match changes for the home side.
pub fn home_change(old: Score, new: Score) -> Totals {
    parted(&home_row(new), &home_row(old))
}

/// What another score of a match changes for the away side.
pub fn away_change(old: Score, new: Score) -> Totals {
    parted(&away_row(new), &away_row(old))
}

/// What another score of a match changes in points, for the home side and for the away side.
pub fn points_change(old: Score, new: Score) -> (i32, i32) {
    let (old_home, old_away) = points_of(old);
    let (home, away) = points_of(new);
    (home.wrapping_sub(old_home), away.wrapping_sub(old_away))
}

fn points_of(score: Score) -> (i32, i32) {
    if score.away < score.home {
        (3, 0)
    } else if score.home == score.away {
        (1, 1)
    } else {
        (0, 3)
    }
}
