//! The sums of all clubs of a box: rows of what was played, and a walk over the other matches.

ghost use Rattle.std.specs.Prelude.{◌≡◌, ◌≢◌, ◌<◌, ◌≤◌, ◌&&◌, ℕ, true, IsTrue, length};
ghost use Rattle.league_core.specs.game.Sums.{has_club, worth_to, worth_among};
ghost use Rattle.league_core.specs.game.ClubSets.{clubs_in};
ghost use Rattle.tie_bound.specs.inside.Sums.{no_sums, sums_at, AreNear};
ghost use Rattle.score_box.specs.inside.Cells.{HasOneOutcome};
ghost use Rattle.score_box.specs.inside.Unplayed.{unplayed_in};
ghost use Rattle.score_box.specs.inside.ZoneBoxViews.{HasFinish};
ghost use Rattle.tie_bound.specs.inside.Rows.{AreRows};
ghost use Rattle.tie_bound.specs.inside.Boxes.{options_in_box, have_one_outcome};
ghost use Rattle.tie_bound.specs.inside.Tables.{AreSums, AddsRangesOfMatch, AddsOpenMatch};

use crate::fixtures::fixtures_of;
use crate::rows::{put_rows_among, put_rows_over};
use crate::sides::Sides;
use crate::sums::Sums;
use league_core::{ClubSet, Fixture};
use score_box::{Cell, ZoneBox};

/// Puts each club's sums over all matches into a table that has none yet, by the clubs' numbers:
/// what was played, and a walk over the other matches. If no finish is left, a walk over all.
pub fn put_sums_over(table: &mut [Sums], zone_box: &ZoneBox)
    requires outcomes { IsTrue (have_one_outcome zone_box.now) }
    requires long { length table.old ≡ 24 }
    requires none { (club : ℕ) → sums_at table.old club ≡ no_sums }
    ensures { AreSums worth_to zone_box.now.sheet.fixtures (options_in_box zone_box.now)
        table.new }
{
    let all = ClubSet::first(zone_box.sheet().clubs.len() as u8);
    if zone_box.has_finish() {
        put_rows_over(table, zone_box);
        add_all_open(table, zone_box, all);
    } else {
        add_all(table, zone_box, all);
    }
}

/// Puts each club's sums over the matches with both ends in the group, in the same way.
pub fn put_sums_among(table: &mut [Sums], zone_box: &ZoneBox, group: ClubSet)
    requires outcomes { IsTrue (have_one_outcome zone_box.now) }
    requires long { length table.old ≡ 24 }
    requires none { (club : ℕ) → sums_at table.old club ≡ no_sums }
    requires group { (member : ℕ) → has_club (clubs_in group) member ≡ true
        → member < length zone_box.now.sheet.clubs }
    ensures { AreSums (worth_among (clubs_in group)) zone_box.now.sheet.fixtures
        (options_in_box zone_box.now) table.new }
{
    if zone_box.has_finish() {
        put_rows_among(table, zone_box, group);
        add_open(table, zone_box, group);
    } else {
        add_all(table, zone_box, group);
    }
}

// Adds the matches of a group of all clubs that are not played.
fn add_all_open(table: &mut [Sums], zone_box: &ZoneBox, all: ClubSet)
    requires outcomes { IsTrue (have_one_outcome zone_box.now) }
    requires has_finish { HasFinish zone_box.now }
    requires clubs { length table.old ≡ 24 }
    requires all { (club : ℕ) → club < length zone_box.now.sheet.clubs
        → has_club (clubs_in all) club ≡ true }
    requires rows { AreRows worth_to zone_box.now.sheet.fixtures zone_box.now.season.scores
        table.old }
    ensures { AreSums worth_to zone_box.now.sheet.fixtures (options_in_box zone_box.now)
        table.new }
{
    let _sheet = zone_box.sheet();
    add_open(table, zone_box, all);
}

// Adds the matches of the group that are not played to a table that has those that are.
fn add_open(table: &mut [Sums], zone_box: &ZoneBox, group: ClubSet)
    requires outcomes { IsTrue (have_one_outcome zone_box.now) }
    requires has_finish { HasFinish zone_box.now }
    requires clubs { length table.old ≡ 24 }
    requires rows { AreRows (worth_among (clubs_in group)) zone_box.now.sheet.fixtures
        zone_box.now.season.scores table.old }
    ensures { AreSums (worth_among (clubs_in group)) zone_box.now.sheet.fixtures
        (options_in_box zone_box.now) table.new }
{
    let _fixtures = fixtures_of(zone_box);
    let end = zone_box.unplayed().len();
    let mut place = zone_box.next_open_among(0, group);
    while place < end {
        add_open_match(table, zone_box, place);
        place = zone_box.next_open_among(place + 1, group);
    }
}

/// Adds the match of a place among those that are not played to the sums of its two clubs.
pub fn add_open_match(table: &mut [Sums], zone_box: &ZoneBox, place: usize)
    requires outcomes { IsTrue (have_one_outcome zone_box.now) }
    requires in_range { place < length (unplayed_in zone_box.now.season.scores) }
    requires clubs { length table.old ≡ 24 }
    requires room { (club : ℕ) → AreNear 10000000 (sums_at table.old club) }
    ensures { AddsOpenMatch worth_to zone_box.now place table.old table.new }
{
    let number = zone_box.unplayed()[place];
    let fixture = fixtures_of(zone_box)[number as usize];
    add(table, fixture, zone_box.cell(number));
}

// Adds all matches of the group to a table that has none yet.
fn add_all(table: &mut [Sums], zone_box: &ZoneBox, group: ClubSet)
    requires outcomes { IsTrue (have_one_outcome zone_box.now) }
    requires clubs { 24 ≤ length table.old }
    requires none { (club : ℕ) → sums_at table.old club ≡ no_sums }
    ensures { AreSums (worth_among (clubs_in group)) zone_box.now.sheet.fixtures
        (options_in_box zone_box.now) table.new }
{
    let fixtures = fixtures_of(zone_box);
    for i in 0..fixtures.len() {
        add_if_counted(table, group, fixtures[i], zone_box.cell(i as u16));
    }
}

// Adds the match to the sums of its two clubs, if both are of the group.
fn add_if_counted(table: &mut [Sums], group: ClubSet, fixture: Fixture, cell: &Cell)
    requires one { HasOneOutcome cell.now }
    requires different { fixture.home ≢ fixture.away }
    requires home { fixture.home < length table.old }
    requires away { fixture.away < length table.old }
    requires room { (club : ℕ) → AreNear 10000000 (sums_at table.old club) }
    ensures { AddsRangesOfMatch (worth_among (clubs_in group)) fixture cell.now
        table.old table.new }
{
    if counts(group, fixture) {
        add(table, fixture, cell);
    }
}

// Both clubs of the match are of the group.
fn counts(group: ClubSet, fixture: Fixture) -> bool
    ensures { result
        ≡ (has_club (clubs_in group) fixture.home && has_club (clubs_in group) fixture.away) }
{
    group.has(fixture.home) && group.has(fixture.away)
}

// Adds the match to the sums of its two clubs.
fn add(table: &mut [Sums], fixture: Fixture, cell: &Cell)
    requires one { HasOneOutcome cell.now }
    requires different { fixture.home ≢ fixture.away }
    requires home { fixture.home < length table.old }
    requires away { fixture.away < length table.old }
    requires room { (club : ℕ) → AreNear 10000000 (sums_at table.old club) }
    ensures { AddsRangesOfMatch worth_to fixture cell.now table.old table.new }
{
    let sides = Sides::of(cell);
    let home = table[fixture.home as usize].plus(&sides.home);
    let away = table[fixture.away as usize].plus(&sides.away);
    table[fixture.home as usize] = home;
    table[fixture.away as usize] = away;
}
