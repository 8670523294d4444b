//! The match points of a set of clubs, and of each club, kept while one match after the other
//! changes.

ghost use Rattle.std.specs.Prelude.{◌≡◌, ◌≢◌, ◌<◌, ◌≤ℤ◌, ℕ, pos, IsTrue};
ghost use Rattle.std.specs.Prelude.{slice_index};
ghost use Rattle.league_core.specs.game.Sheets.{is_fixture};
ghost use Rattle.league_core.specs.game.Sums.{match_points, worth_to};
ghost use Rattle.league_core.specs.game.ClubSets.{clubs_in};
ghost use Rattle.league_core.specs.search.PointRanges.{added, range_of, range_from};
ghost use Rattle.league_core.specs.search.PointRanges.{points_together, points_of_sides};
ghost use Rattle.check_bounds.specs.inside.Terms.{side_worth};
ghost use Rattle.check_bounds.specs.declared.term.Measure.TheVariants as kinds;
ghost use Rattle.check_bounds.specs.inside.IntRanges as ranges;
ghost use Rattle.check_bounds.specs.inside.IntRanges.{as_sum_range, IsRangeWithin};
ghost use Rattle.check_bounds.specs.inside.Cells.{points_by_table};
ghost use Rattle.check_bounds.specs.inside.Tables.{ArePlayedOver};

use crate::compare::range_at;
use crate::extreme_scores::ExtremeScores;
use crate::int_range::{IntRange, look_range};
use crate::term::{Measure, Term};
use league_core::{ClubSet, Fixture, Season};

/// The match points of the clubs of a set.
pub fn won_by(fixtures: &[Fixture], corners: &[ExtremeScores], set: ClubSet) -> IntRange
    requires { ArePlayedOver fixtures.now corners.now }
    ensures points { as_sum_range result
        ≡ range_from (points_together (clubs_in set)) fixtures.now corners.now }
    ensures near { IsRangeWithin 153000 result }
{
    let mut won = IntRange::ZERO;
    for i in 0..fixtures.len() {
        let home = set.has(fixtures[i].home);
        let away = set.has(fixtures[i].away);
        won = won.plus(won_in(&corners[i], home, away));
    }
    won
}

// The match points that a match gives to its sides that count; most matches of a small set give
// none.
fn won_in(corners: &ExtremeScores, home: bool, away: bool) -> IntRange
    ensures range { as_sum_range result ≡ range_of (points_of_sides home away) corners.now }
    ensures near { IsRangeWithin 255 result }
{
    if home || away {
        look_range(corners.as_slice(), Term::Both { home, away })
    } else {
        IntRange::ZERO
    }
}

/// Takes what a match gave to its two clubs off their points, and adds what it gives now.
pub fn exchange_match(
    won: &mut [IntRange; 32],
    fixture: Fixture,
    old: &ExtremeScores,
    new: &ExtremeScores,
)
    requires team { IsTrue (is_fixture 24 fixture) }
    requires near { (club : ℕ) → IsRangeWithin 2000 (ranges.range_at won.old club) }
    ensures { (club : ℕ) → added (as_sum_range (ranges.range_at won.new club))
        (range_of (worth_to match_points club fixture) old.now)
        ≡ added (as_sum_range (ranges.range_at won.old club))
        (range_of (worth_to match_points club fixture) new.now) }
{
    exchange(
        won,
        fixture.home,
        points_in(old, false),
        points_in(new, false),
    );
    exchange(
        won,
        fixture.away,
        points_in(old, true),
        points_in(new, true),
    );
}

// The match points of one side in a match.
fn points_in(corners: &ExtremeScores, away: bool) -> IntRange
    ensures range { as_sum_range result ≡ range_of (side_worth kinds.Points away) corners.now }
    ensures near { IsRangeWithin 255 result }
{
    let kind = Measure::Points;
    look_range(corners.as_slice(), Term::Side { kind, away })
}

// One range in the place of another in a club's sum.
fn exchange(won: &mut [IntRange; 32], club: u8, old: IntRange, new: IntRange)
    requires in_range { club < 32 }
    requires near { IsRangeWithin 2000 (ranges.range_at won.old club) }
    requires small { IsRangeWithin 255 old × IsRangeWithin 255 new }
    ensures own { added (as_sum_range (ranges.range_at won.new club)) (as_sum_range old)
        ≡ added (as_sum_range (ranges.range_at won.old club)) (as_sum_range new) }
    ensures others { (other : ℕ) → other ≢ club
        → ranges.range_at won.new other ≡ ranges.range_at won.old other }
{
    won[club as usize] = won[club as usize].exchanged(old, new);
}

/// A club's match points less what is taken off it.
pub fn points_of_club(won: &[IntRange; 32], season: &Season, club: u8) -> IntRange
    requires in_range { club < 32 }
    requires near { IsRangeWithin 2000 (ranges.range_at won.now club) }
    ensures range { as_sum_range result ≡ points_by_table season.now won.now club }
    ensures near { IsRangeWithin 200000 result }
{
    range_at(won, club).less(taken_off(season, club))
}

// The points that are taken off a club.
fn taken_off(season: &Season, club: u8) -> i64
    ensures value { result ≡ pos (slice_index season.now.deductions club) }
    ensures within { (pos 0 ≤ℤ result) × (result ≤ℤ pos 255) }
{
    let deductions = season.deductions();
    i64::from(deductions.get(club as usize).copied().unwrap_or(0))
}
