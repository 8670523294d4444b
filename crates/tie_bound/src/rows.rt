//! Tables of the clubs' sums over the matches that are played, by looks at what a box keeps. The
//! caller has the table, and it is filled in place.

ghost use Rattle.std.specs.Prelude.{◌≡◌, ◌<◌, ℕ, true, length};
ghost use Rattle.league_core.specs.game.Sums.{has_club, worth_to, worth_among};
ghost use Rattle.league_core.specs.game.ClubSets.{clubs_in};
ghost use Rattle.tie_bound.specs.inside.Sums.{no_sums, sums_at};
ghost use Rattle.tie_bound.specs.inside.Rows.{AreRows, IsRow};

use crate::sums::Sums;
use league_core::ClubSet;
use score_box::ZoneBox;

/// Puts each club's sums over all matches that are played into a table that has none yet, by the
/// clubs' numbers.
pub fn put_rows_over(table: &mut [Sums], zone_box: &ZoneBox)
    requires long { length table.old ≡ 24 }
    requires none { (club : ℕ) → sums_at table.old club ≡ no_sums }
    ensures { AreRows worth_to zone_box.now.sheet.fixtures zone_box.now.season.scores table.new }
{
    for club in 0..zone_box.sheet().clubs.len() as u8 {
        table[club as usize] = row_over(zone_box, club);
    }
}

/// Puts each club's sums over those with both ends in the group. A club outside it has none.
pub fn put_rows_among(table: &mut [Sums], zone_box: &ZoneBox, group: ClubSet)
    requires long { length table.old ≡ 24 }
    requires none { (club : ℕ) → sums_at table.old club ≡ no_sums }
    requires group { (member : ℕ) → has_club (clubs_in group) member ≡ true
        → member < length zone_box.now.sheet.clubs }
    ensures { AreRows (worth_among (clubs_in group)) zone_box.now.sheet.fixtures
        zone_box.now.season.scores table.new }
{
    let _sheet = zone_box.sheet();
    for club in group.clubs() {
        table[club as usize] = row_among(zone_box, group, club);
    }
}

/// A club's sums over all matches that are played.
pub fn row_over(zone_box: &ZoneBox, club: u8) -> Sums
    requires { club < length zone_box.now.sheet.clubs }
    ensures { IsRow worth_to zone_box.now.sheet.fixtures zone_box.now.season.scores club result }
{
    Sums::only(&zone_box.totals(club))
}

fn row_among(zone_box: &ZoneBox, group: ClubSet, club: u8) -> Sums
    requires group { (member : ℕ) → has_club (clubs_in group) member ≡ true
        → member < length zone_box.now.sheet.clubs }
    requires club { has_club (clubs_in group) club ≡ true }
    ensures { IsRow (worth_among (clubs_in group)) zone_box.now.sheet.fixtures
        zone_box.now.season.scores club result }
{
    Sums::only(&zone_box.totals_among(group, club))
}
