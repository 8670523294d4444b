//! Comparisons of two clubs' sums, each a range: what is sure of a rival against the club.

ghost use Rattle.std.specs.Prelude.{◌≡◌, ◌||◌, int_lt, neg_ℤ, pos};
ghost use Rattle.league_core.specs.search.PointRanges.{one_value};
ghost use Rattle.league_core.specs.search.SureOrder.{sure_by_range, sure_by_ranges, sure_then};
ghost use Rattle.league_core.specs.search.SureOrder.{is_apart};
ghost use Rattle.tie_bound.specs.inside.IntRanges.{as_range};
ghost use Rattle.tie_bound.specs.inside.Answers.{record_ranges_of, first_ranges_of, ranges_of};
ghost use Rattle.tie_bound.specs.inside.Answers.{overall_ranges_of, is_answer};

use crate::int_range::IntRange;
use crate::parts::Parts;
use crate::sums::Sums;
use league_core::Sure;

/// Ranges that lie apart decide, two equal single values leave the two level.
pub fn by_range(rival: IntRange, club: IntRange) -> Sure
    ensures { result ≡ sure_by_range (as_range rival) (as_range club) }
{
    if club.greatest < rival.least {
        Sure::Above
    } else if rival.greatest < club.least {
        Sure::Below
    } else if rival.least == rival.greatest && club.least == club.greatest {
        Sure::Level
    } else {
        Sure::Unknown
    }
}

/// One value is above the other, below it or level with it.
pub fn by_value(rival: i32, club: i32) -> Sure
    ensures { result ≡ sure_by_range (one_value rival) (one_value club) }
{
    if club < rival {
        Sure::Above
    } else if rival < club {
        Sure::Below
    } else {
        Sure::Level
    }
}

// If one step leaves the two level, the next decides.
fn then(first: Sure, next: Sure) -> Sure
    ensures { result ≡ sure_then first next }
{
    match first {
        Sure::Above => Sure::Above,
        Sure::Below => Sure::Below,
        Sure::Level => next,
        Sure::Unknown => Sure::Unknown,
    }
}

/// These parts of the two clubs, one after the other.
pub fn by_parts(parts: Parts, rival: &Sums, club: &Sums) -> Sure
    ensures { result ≡ sure_by_ranges (ranges_of parts rival.now) (ranges_of parts club.now) }
{
    match parts {
        Parts::Record => by_record(rival, club),
        Parts::FirstSums => by_first_sums(rival, club),
    }
}

// The head-to-head records, by the sums over the matches of a group: points, then goal difference,
// then goals.
fn by_record(rival: &Sums, club: &Sums) -> Sure
    ensures { result ≡ sure_by_ranges (record_ranges_of rival.now) (record_ranges_of club.now) }
{
    match by_range(rival.points, club.points) {
        Sure::Level => by_first_sums(rival, club),
        decided => decided,
    }
}

// Goal difference, then goals, by the sums over all matches.
fn by_first_sums(rival: &Sums, club: &Sums) -> Sure
    ensures { result ≡ sure_by_ranges (first_ranges_of rival.now) (first_ranges_of club.now) }
{
    match by_range(rival.difference, club.difference) {
        Sure::Level => by_range(rival.goals, club.goals),
        decided => decided,
    }
}

/// What decides after the head-to-head, by the sums over all matches, then the fixed ranks.
pub fn by_overall(rival: &Sums, club: &Sums, rival_rank: u16, club_rank: u16) -> Sure
    ensures { result ≡ sure_by_ranges (overall_ranges_of rival.now rival_rank)
        (overall_ranges_of club.now club_rank) }
{
    let by_rank = by_range(rank_range(rival_rank), rank_range(club_rank));
    let by_away_wins = then(by_range(rival.away_wins, club.away_wins), by_rank);
    let by_wins = then(by_range(rival.wins, club.wins), by_away_wins);
    let by_away_goals = then(by_range(rival.away_goals, club.away_goals), by_wins);
    let by_goals = then(by_range(rival.goals, club.goals), by_away_goals);
    then(by_range(rival.difference, club.difference), by_goals)
}

// A rank as a sum that is better the greater it is.
fn rank_range(rank: u16) -> IntRange
    ensures { as_range result ≡ one_value (neg_ℤ (pos rank)) }
{
    IntRange::only(-i32::from(rank))
}

/// One of these parts is surely different.
pub fn are_apart(parts: Parts, rival: &Sums, club: &Sums) -> bool
    ensures { result ≡ is_apart (ranges_of parts rival.now) (ranges_of parts club.now) }
{
    let sums_apart = lie_apart(rival.difference, club.difference)
        || lie_apart(rival.goals, club.goals);
    match parts {
        Parts::Record => lie_apart(rival.points, club.points) || sums_apart,
        Parts::FirstSums => sums_apart,
    }
}

fn lie_apart(rival: IntRange, club: IntRange) -> bool
    ensures { result
        ≡ (int_lt club.greatest rival.least || int_lt rival.greatest club.least) }
{
    club.greatest < rival.least || rival.greatest < club.least
}

pub fn is_answer(wanted: Sure, answer: Sure) -> bool
    ensures { result ≡ is_answer wanted answer }
{
    wanted == answer
}
