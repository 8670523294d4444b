//! The sums over all matches of the clubs that are compared with one club: of no others a row is
//! looked up, and a match between two others is passed over.

ghost use Rattle.std.specs.Prelude.{◌≡◌, ◌<◌, ◌≤◌, ℕ, true, false, IsTrue};
ghost use Rattle.std.specs.Prelude.{length};
ghost use Rattle.league_core.specs.game.Sums.{has_club, worth_to};
ghost use Rattle.league_core.specs.game.ClubSets.{clubs_in};
ghost use Rattle.score_box.specs.inside.Unplayed.{unplayed_in};
ghost use Rattle.score_box.specs.inside.ZoneBoxViews.{HasFinish};
ghost use Rattle.tie_bound.specs.inside.Sums.{no_sums, sums_at, AreNear};
ghost use Rattle.tie_bound.specs.inside.Rows.{IsRow};
ghost use Rattle.tie_bound.specs.inside.Boxes.{options_in_box, have_one_outcome};
ghost use Rattle.tie_bound.specs.inside.Tables.{AreSumsFor, AreSumsOfThose, AddsOpenBut};
ghost use Rattle.tie_bound.specs.inside.Tables.{IsWanted};

use crate::fixtures::fixtures_of;
use crate::rows::row_over;
use crate::sums::Sums;
use crate::table::{add_open_match, put_sums_over};
use league_core::ClubSet;
use score_box::ZoneBox;

/// Puts the sums over all matches of each club of the group, and of the one, into a table that has
/// none yet, by the clubs' numbers.
pub fn put_sums_for(table: &mut [Sums], zone_box: &ZoneBox, group: ClubSet, club: u8)
    requires outcomes { IsTrue (have_one_outcome zone_box.now) }
    requires long { length table.old ≡ 24 }
    requires none { (other : ℕ) → sums_at table.old other ≡ no_sums }
    requires group { (member : ℕ) → has_club (clubs_in group) member ≡ true
        → member < length zone_box.now.sheet.clubs }
    ensures { AreSumsFor (clubs_in group) club zone_box.now.sheet.fixtures
        (options_in_box zone_box.now) table.new }
{
    let clubs = zone_box.sheet().clubs.len() as u8;
    let wanted = with_club(group, club, clubs);
    if zone_box.has_finish() {
        put_rows_for(table, zone_box, wanted);
        add_open_for(table, zone_box, wanted.others(clubs));
    } else {
        put_sums_over(table, zone_box);
    }
}

// The group, and the club too if it is one of so many.
fn with_club(group: ClubSet, club: u8, clubs: u8) -> ClubSet
    requires few { clubs ≤ 24 }
    requires in_range { (member : ℕ) → has_club (clubs_in group) member ≡ true → member < clubs }
    ensures kept { (other : ℕ) → has_club (clubs_in group) other ≡ true
        → has_club (clubs_in result) other ≡ true }
    ensures club { club < clubs → has_club (clubs_in result) club ≡ true }
    ensures in_range { (member : ℕ) → has_club (clubs_in result) member ≡ true → member < clubs }
{
    if club < clubs {
        group.with_if(true, club)
    } else {
        group
    }
}

// Puts the rows of the wanted clubs, and none of others.
fn put_rows_for(table: &mut [Sums], zone_box: &ZoneBox, wanted: ClubSet)
    requires long { length table.old ≡ 24 }
    requires none { (club : ℕ) → sums_at table.old club ≡ no_sums }
    requires wanted { (member : ℕ) → has_club (clubs_in wanted) member ≡ true
        → member < length zone_box.now.sheet.clubs }
    ensures rows { (club : ℕ) → IsWanted (length zone_box.now.sheet.clubs) (clubs_in wanted) club
        → IsRow worth_to zone_box.now.sheet.fixtures zone_box.now.season.scores club
        (sums_at table.new club) }
    ensures near { (club : ℕ) → AreNear 5000000 (sums_at table.new club) }
{
    let _sheet = zone_box.sheet();
    for club in wanted.clubs() {
        table[club as usize] = row_over(zone_box, club);
    }
}

// Adds the matches that are not played, but for those of two others.
fn add_open_for(table: &mut [Sums], zone_box: &ZoneBox, others: ClubSet)
    requires outcomes { IsTrue (have_one_outcome zone_box.now) }
    requires has_finish { HasFinish zone_box.now }
    requires clubs { length table.old ≡ 24 }
    requires rows { (club : ℕ) → has_club (clubs_in others) club ≡ false
        → IsRow worth_to zone_box.now.sheet.fixtures zone_box.now.season.scores club
        (sums_at table.old club) }
    requires near { (club : ℕ) → AreNear 5000000 (sums_at table.old club) }
    ensures { AreSumsOfThose (λ club. has_club (clubs_in others) club ≡ false)
        zone_box.now.sheet.fixtures (options_in_box zone_box.now) table.new }
{
    let _fixtures = fixtures_of(zone_box);
    for place in 0..zone_box.unplayed().len() {
        add_unless_among(table, zone_box, place, others);
    }
}

// Adds the match of a place among those that are not played, unless both its clubs are others.
fn add_unless_among(table: &mut [Sums], zone_box: &ZoneBox, place: usize, others: ClubSet)
    requires outcomes { IsTrue (have_one_outcome zone_box.now) }
    requires in_range { place < length (unplayed_in zone_box.now.season.scores) }
    requires clubs { length table.old ≡ 24 }
    requires room { (club : ℕ) → AreNear 10000000 (sums_at table.old club) }
    ensures { AddsOpenBut (clubs_in others) zone_box.now place table.old table.new }
{
    if !zone_box.is_open_among(place, others) {
        add_open_match(table, zone_box, place);
    }
}
