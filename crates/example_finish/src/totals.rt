//! What the matches of the proposed finish add up to for clubs.

ghost use Rattle.std.specs.Prelude.{◌≡◌, ◌≢◌, ℕ, ◌<◌, ◌+◌, ◌&&◌, ◌||◌, IsTrue, length};
ghost use Rattle.league_core.specs.game.Sums.{has_club, worth_to};
ghost use Rattle.league_core.specs.game.ClubSets.{clubs_in};
ghost use Rattle.tie_criteria.specs.inside.Groups.{IsGroupOf};
ghost use Rattle.score_box.specs.inside.Totals.{totals_at, no_totals, AreTotalsNear, TotalsGrowBy};
ghost use Rattle.example_finish.specs.inside.ProposalViews.{sheet_asked, season_asked};
ghost use Rattle.example_finish.specs.inside.ProposalViews.{finish_asked};
ghost use Rattle.example_finish.specs.inside.ProposedTotals.{AreTotalsAmong, AreTotalsFor};
ghost use Rattle.example_finish.specs.inside.ProposedTotals.{AreTotalsOver, AreTotalsAllNear};
ghost use Rattle.example_finish.specs.inside.ProposedTotals.{worth_proposed};

use crate::proposed::Proposed;
use league_core::{ClubSet, Fixture, Score};
use score_box::{Totals, ZoneBox};

impl<'a> Proposed<'a> {
    /// What the matches among the clubs of a group add up to for each of these, by the clubs'
    /// numbers.
    pub fn totals_among(&self, group: ClubSet) -> [Totals; 24]
        requires { IsGroupOf (sheet_asked self.now) (clubs_in group) }
        ensures { AreTotalsAmong (sheet_asked self.now) (finish_asked self.now) (clubs_in group)
            result }
    {
        let mut table = played_among(self.zone_box(), group);
        self.add_proposed(&mut table, group, group);
        table
    }

    /// What all matches add up to for each club of a group, by the clubs' numbers.
    pub fn totals_over(&self, group: ClubSet) -> [Totals; 24]
        requires { IsGroupOf (sheet_asked self.now) (clubs_in group) }
        ensures { AreTotalsOver (sheet_asked self.now) (finish_asked self.now) (clubs_in group)
            result }
    {
        let all = ClubSet::first(self.sheet().clubs.len() as u8);
        let mut table = played_over(self.zone_box(), group);
        self.add_proposed(&mut table, all, group);
        table
    }

    // Adds to the rows of some clubs of a group the matches among the group's clubs that are not
    // played. If neither side is one of those clubs, a match is passed over.
    fn add_proposed(&self, table: &mut [Totals], group: ClubSet, rows: ClubSet)
        requires of_group { IsGroupOf (sheet_asked self.now) (clubs_in group) }
        requires long { length table.old ≡ 24 }
        requires near { AreTotalsAllNear 5000000 table.old }
        requires played { AreTotalsFor (sheet_asked self.now) (season_asked self.now)
            (clubs_in group) (clubs_in rows) table.old }
        ensures { AreTotalsFor (sheet_asked self.now) (finish_asked self.now)
            (clubs_in group) (clubs_in rows) table.new }
    {
        let _season = self.season();
        let _sheet = self.sheet();
        let unplayed = self.zone_box.unplayed();
        for i in 0..unplayed.len() {
            self.add_if_counted(table, group, rows, unplayed[i]);
        }
    }

    // Adds a match, if both its sides are of the group and one of them has a row that is wanted.
    fn add_if_counted(&self, table: &mut [Totals], group: ClubSet, rows: ClubSet, fixture: u16)
        requires in_range { fixture < length (season_asked self.now).scores }
        requires long { length table.old ≡ 24 }
        requires near { AreTotalsAllNear 100000000 table.old }
        ensures sums { (club : ℕ) → IsTrue (has_club (clubs_in rows) club) → TotalsGrowBy
            (worth_proposed self.now (clubs_in group) club fixture)
            (totals_at table.old club) (totals_at table.new club) }
        ensures near { (club bound : ℕ) → AreTotalsNear bound (totals_at table.old club)
            → AreTotalsNear (bound + 255) (totals_at table.new club) }
    {
        let sides = self.sides(fixture);
        if is_among(group, sides) && is_of_one(rows, sides) {
            add(table, sides, self.score(fixture));
        }
    }
}

// Both sides are of the group.
fn is_among(group: ClubSet, sides: Fixture) -> bool
    ensures { result ≡ (has_club (clubs_in group) sides.home
        && has_club (clubs_in group) sides.away) }
{
    group.has(sides.home) && group.has(sides.away)
}

// One of the sides is of the set, or both are.
fn is_of_one(rows: ClubSet, sides: Fixture) -> bool
    ensures { result ≡ (has_club (clubs_in rows) sides.home
        || has_club (clubs_in rows) sides.away) }
{
    rows.has(sides.home) || rows.has(sides.away)
}

// Adds a match to the rows of its two clubs.
fn add(table: &mut [Totals], sides: Fixture, score: Score)
    requires different { sides.home ≢ sides.away }
    requires home { sides.home < length table.old }
    requires away { sides.away < length table.old }
    requires near { AreTotalsAllNear 100000000 table.old }
    ensures { (club : ℕ) → TotalsGrowBy (λ worth. worth_to worth club sides score)
        (totals_at table.old club) (totals_at table.new club) }
{
    let at_home = with_match(&table[sides.home as usize], score.home, score.away, false);
    let on_tour = with_match(&table[sides.away as usize], score.away, score.home, true);
    table[sides.home as usize] = at_home;
    table[sides.away as usize] = on_tour;
}

// The row with one match more.
fn with_match(totals: &Totals, scored: u8, conceded: u8, away: bool) -> Totals
    requires { AreTotalsNear 100000000 totals.now }
    ensures { TotalsGrowBy (λ worth. worth scored conceded away) totals.now result }
{
    totals.with(&Totals::NONE.plus(scored, conceded, away))
}

// A table of clubs without a match.
fn no_rows() -> [Totals; 24]
    ensures none { (club : ℕ) → totals_at result club ≡ no_totals }
    ensures long { length result ≡ 24 }
{
    [Totals::NONE; 24]
}

// What the played matches among the clubs of a group add up to for each of these.
fn played_among(zone_box: &ZoneBox, group: ClubSet) -> [Totals; 24]
    requires { IsGroupOf zone_box.now.sheet (clubs_in group) }
    ensures totals { AreTotalsAmong zone_box.now.sheet zone_box.now.season (clubs_in group)
        result }
    ensures near { AreTotalsAllNear 5000000 result }
    ensures long { length result ≡ 24 }
{
    let _sheet = zone_box.sheet();
    let mut table = no_rows();
    for club in group.clubs() {
        table[club as usize] = zone_box.totals_among(group, club);
    }
    table
}

// What all played matches add up to for each club of a group.
fn played_over(zone_box: &ZoneBox, group: ClubSet) -> [Totals; 24]
    requires { IsGroupOf zone_box.now.sheet (clubs_in group) }
    ensures totals { AreTotalsOver zone_box.now.sheet zone_box.now.season (clubs_in group)
        result }
    ensures near { AreTotalsAllNear 5000000 result }
    ensures long { length result ≡ 24 }
{
    let _sheet = zone_box.sheet();
    let mut table = no_rows();
    for club in group.clubs() {
        table[club as usize] = zone_box.totals(club);
    }
    table
}
