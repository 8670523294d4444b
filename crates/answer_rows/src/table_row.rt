//! What a table says of one club.

ghost use Rattle.std.specs.Prelude.{◌≡◌, ◌<◌, ◌≤◌, length};
ghost use Rattle.league_core.specs.game.Limits.{most_fixtures};
ghost use Rattle.league_core.specs.game.Seasons.{IsLeague};
ghost use Rattle.final_rank.specs.inside.Spans.{span_of};
ghost use Rattle.answer_rows.specs.Tables.{IsTableRow, count_if_played, count_played, plays_in};

use final_rank::PlaceRange;
use league_core::{Fixture, Score, Season, Sheet};
use tie_criteria::{Tail, points_of, tail_of};

/// A club's places over all drawings of lots, from 1, and what its matches so far add up to.
#[derive(Clone, Copy, Debug, PartialEq, Eq)]
pub struct TableRow {
    pub best: u8,
    pub worst: u8,
    /// How many of its matches have a score.
    pub played: u16,
    /// Less the points taken off it.
    pub points: i32,
    pub difference: i32,
    pub scored: i32,
}

/// The row of a club, by its number from 0; `span` is the places that the season leaves it.
pub fn row_of(sheet: &Sheet, season: &Season, span: PlaceRange, club: u8) -> TableRow
    requires league { IsLeague sheet.now season.now }
    requires in_range { club < length sheet.now.clubs }
    requires span { span ≡ span_of sheet.now season.now club }
    ensures { IsTableRow sheet.now season.now club result }
{
    let count = count_played(sheet, season, club);
    joined(
        span,
        count,
        points_of(sheet, season, club),
        tail_of(sheet, season, club),
    )
}

fn joined(span: PlaceRange, played: u16, points: i32, sums: Tail) -> TableRow
    ensures { result ≡ record {
      best = span.best;
      worst = span.worst;
      played = played;
      points = points;
      difference = sums.difference;
      scored = sums.scored;
    } }
{
    TableRow {
        best: span.best,
        worst: span.worst,
        played,
        points,
        difference: sums.difference,
        scored: sums.scored,
    }
}

fn count_played(sheet: &Sheet, season: &Season, club: u8) -> u16
    requires few { length sheet.now.fixtures ≤ most_fixtures }
    requires of_sheet { length season.now.scores ≡ length sheet.now.fixtures }
    ensures { result ≡ count_played club sheet.now.fixtures season.now.scores }
{
    let matches = sheet.fixtures.as_slice();
    let scores = season.scores();
    let mut count = 0;
    for i in 0..matches.len() {
        count += count_if_played(club, &matches[i], scores[i]);
    }
    count
}

fn count_if_played(club: u8, fixture: &Fixture, score: Option<Score>) -> u16
    ensures value { result ≡ count_if_played club fixture.now score }
    ensures within { result ≤ 1 }
{
    if score.is_some() && plays_in(club, fixture) {
        1
    } else {
        0
    }
}

fn plays_in(club: u8, fixture: &Fixture) -> bool
    ensures { result ≡ plays_in club fixture.now }
{
    fixture.home == club || fixture.away == club
}
