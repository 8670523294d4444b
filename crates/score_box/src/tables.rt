//! Tables of what was played, made in one walk over the fixtures.

ghost use Rattle.std.specs.Prelude.{◌≡◌, ◌≢◌, ◌<◌, ◌≤◌, ◌+◌, ◌+ℤ◌, ℕ, pos, true, false, IfOk, []};
ghost use Rattle.std.specs.Prelude.{◌∷◌, length};
ghost use Rattle.std.specs.List.{All};
ghost use Rattle.league_core.specs.declared.season.Score.{Score};
ghost use Rattle.league_core.specs.game.Limits.{most_fixtures};
ghost use Rattle.league_core.specs.game.ClubSets.{clubs_in};
ghost use Rattle.league_core.specs.game.Sums.{has_club, if_played, worth_to, worth_among};
ghost use Rattle.score_box.specs.inside.Ends.{IsMatch};
ghost use Rattle.score_box.specs.inside.Totals.{AreTables, AreTotalsNear, TotalsGrowBy, AddsScore};
ghost use Rattle.score_box.specs.inside.Totals.{AddsPairs, no_totals, totals_at, pair_place};

use crate::totals::Totals;
use league_core::{ClubSet, Fixture, OutOfMemory, Score};
use std::alloc::Global;

/// The row of each club, and that of each club against each other.
#[derive(Drop)]
pub struct Tables {
    pub clubs: Vec<Totals>,
    pub pairs: Vec<Totals>,
}

impl Tables {
    /// The tables of these matches.
    pub fn of(
        alloc: Global,
        fixtures: &[Fixture],
        scores: &[Option<Score>],
    ) -> Result<Tables, OutOfMemory>
        requires many { length fixtures.now ≡ length scores.now }
        requires few { length fixtures.now ≤ most_fixtures }
        requires matches { All IsMatch fixtures.now }
        ensures { IfOk result (λ tables. AreTables fixtures.now scores.now tables.clubs.items
            tables.pairs.items) }
    {
        let mut clubs = vec![in alloc; Totals::NONE; 24]?;
        let mut pairs = vec![in alloc; Totals::NONE; 576]?;
        add_all(&mut clubs, &mut pairs, fixtures, scores);
        Ok(Tables { clubs, pairs })
    }

    pub fn of_club(&self, club: u8) -> Totals
        requires { club < length self.now.clubs.items }
        ensures { result ≡ totals_at self.now.clubs.items club }
    {
        self.clubs[club as usize]
    }

    pub fn of_pair(&self, club: u8, rival: u8) -> Totals
        requires { pair_place club rival < length self.now.pairs.items }
        ensures { result ≡ totals_at self.now.pairs.items (pair_place club rival) }
    {
        self.pairs[24 * usize::from(club) + usize::from(rival)]
    }

    /// The rows of a club against the clubs of a group, added.
    pub fn of_group(&self, group: ClubSet, club: u8) -> Totals
        requires pairs { length self.now.pairs.items ≡ 576 }
        requires club { club < 24 }
        requires group { (rival : ℕ) → has_club (clubs_in group) rival ≡ true → rival < 24 }
        requires near { (rival : ℕ) → rival < 24
            → AreTotalsNear 153000 (totals_at self.now.pairs.items (pair_place club rival)) }
        ensures sums { AddsPairs self.now.pairs.items club (clubs_in group) result }
        ensures near { AreTotalsNear 5000000 result }
    {
        let mut totals = Totals::NONE;
        for rival in group.clubs() {
            totals = totals.with(&self.of_pair(club, rival));
        }
        totals
    }

    pub fn copy(&self, alloc: Global) -> Result<Tables, OutOfMemory>
        ensures clubs { IfOk result (λ tables. tables.clubs.items ≡ self.now.clubs.items) }
        ensures pairs { IfOk result (λ tables. tables.pairs.items ≡ self.now.pairs.items) }
    {
        let clubs = Vec::from_slice(alloc, &self.clubs)?;
        let pairs = Vec::from_slice(alloc, &self.pairs)?;
        Ok(Tables { clubs, pairs })
    }
}

// Adds all matches that are played to tables that have none yet.
fn add_all(
    clubs: &mut [Totals],
    pairs: &mut [Totals],
    fixtures: &[Fixture],
    scores: &[Option<Score>],
)
    requires many { length fixtures.now ≡ length scores.now }
    requires few { length fixtures.now ≤ most_fixtures }
    requires matches { All IsMatch fixtures.now }
    requires clubs { length clubs.old ≡ 24 }
    requires pairs { length pairs.old ≡ 576 }
    requires no_club { (place : ℕ) → totals_at clubs.old place ≡ no_totals }
    requires no_pair { (place : ℕ) → totals_at pairs.old place ≡ no_totals }
    ensures { AreTables fixtures.now scores.now clubs.new pairs.new }
{
    for i in 0..fixtures.len() {
        add_if_played(clubs, pairs, fixtures[i], scores[i]);
    }
}

// Adds a match, if it is played, to the rows of its two clubs, and to those of each against the
// other.
fn add_if_played(clubs: &mut [Totals], pairs: &mut [Totals], fixture: Fixture, score: Option<Score>)
    requires fixture { IsMatch fixture }
    requires clubs { length clubs.old ≡ 24 }
    requires pairs { length pairs.old ≡ 576 }
    requires room_clubs { (place : ℕ) → place < 24
        → AreTotalsNear 1000000 (totals_at clubs.old place) }
    requires room_pairs { (club rival : ℕ) → club < 24 → rival < 24
        → AreTotalsNear 1000000 (totals_at pairs.old (pair_place club rival)) }
    ensures clubs { (club : ℕ) → club < 24
        → TotalsGrowBy (λ worth. if_played (worth_to worth club) fixture score)
        (totals_at clubs.old club) (totals_at clubs.new club) }
    ensures pairs { (club rival : ℕ) → club < 24 → rival < 24
        → TotalsGrowBy
        (λ worth. if_played (worth_among (club ∷ rival ∷ []) worth club) fixture score)
        (totals_at pairs.old (pair_place club rival))
        (totals_at pairs.new (pair_place club rival)) }
{
    if let Some(score) = score {
        add_match(clubs, pairs, fixture, score);
    }
}

// Adds a match with this score. What it is worth to each side is worked out once for both tables.
fn add_match(clubs: &mut [Totals], pairs: &mut [Totals], fixture: Fixture, score: Score)
    requires fixture { IsMatch fixture }
    requires clubs { length clubs.old ≡ 24 }
    requires pairs { length pairs.old ≡ 576 }
    requires room_clubs { (place : ℕ) → place < 24
        → AreTotalsNear 1000000 (totals_at clubs.old place) }
    requires room_pairs { (club rival : ℕ) → club < 24 → rival < 24
        → AreTotalsNear 1000000 (totals_at pairs.old (pair_place club rival)) }
    ensures clubs { (club : ℕ) → club < 24
        → TotalsGrowBy (λ worth. worth_to worth club fixture score)
        (totals_at clubs.old club) (totals_at clubs.new club) }
    ensures pairs { (club rival : ℕ) → club < 24 → rival < 24
        → TotalsGrowBy (λ worth. worth_among (club ∷ rival ∷ []) worth club fixture score)
        (totals_at pairs.old (pair_place club rival))
        (totals_at pairs.new (pair_place club rival)) }
{
    let home = fixture.home as usize;
    let away = fixture.away as usize;
    let at_home = Totals::NONE.plus(score.home, score.away, false);
    let on_tour = Totals::NONE.plus(score.away, score.home, true);
    add(clubs, home, away, &at_home, &on_tour);
    add(
        pairs,
        24 * home + away,
        24 * away + home,
        &at_home,
        &on_tour,
    );
}

// Adds to two rows what a match is worth: at home to the one, and away to the other.
fn add(table: &mut [Totals], home: usize, away: usize, at_home: &Totals, on_tour: &Totals)
    requires different { home ≢ away }
    requires home { home < length table.old }
    requires away { away < length table.old }
    requires room_home { AreTotalsNear 1000000 (totals_at table.old home) }
    requires room_away { AreTotalsNear 1000000 (totals_at table.old away) }
    requires near_home { AreTotalsNear 255 at_home.now }
    requires near_away { AreTotalsNear 255 on_tour.now }
    ensures { (score : Score)
        → TotalsGrowBy (λ worth. worth score.home score.away false) no_totals at_home.now
        → TotalsGrowBy (λ worth. worth score.away score.home true) no_totals on_tour.now
        → AddsScore home away score table.old table.new }
{
    let home_row = table[home].with(at_home);
    table[home] = home_row;
    let away_row = table[away].with(on_tour);
    table[away] = away_row;
}
