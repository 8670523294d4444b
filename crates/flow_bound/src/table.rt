//! A table with an entry for each club that a set can have.

ghost use Rattle.std.specs.Prelude.{◌≡◌, ℕ, ◌^◌, ◌<◌, ◌+ℤ◌, ◌≤ℤ◌, pos, neg_ℤ, int_lt};
ghost use Rattle.std.specs.Prelude.{slice_set, length};
ghost use Rattle.league_core.specs.game.Limits.{set_width};
ghost use Rattle.score_box.specs.inside.Points.{most_taken_off};
ghost use Rattle.score_box.specs.inside.ZoneBoxViews.{HasFinish};
ghost use Rattle.flow_bound.specs.inside.Parts.{IsClubTable, entry, least_entry, most_credits};
ghost use Rattle.flow_bound.specs.inside.Parts.{most_entry};
ghost use Rattle.flow_bound.specs.inside.Fixtures.{own_end};

use crate::cut::Cut;
use league_core::limits::SET_WIDTH;
use score_box::ZoneBox;

/// The clubs that a set can have.
pub const WIDTH: usize = SET_WIDTH as usize;

pub type Table = [i64; WIDTH];

/// The level for each club, with the end of its own points that the cut counts.
pub fn own_excess_table(zone_box: &ZoneBox, cut: Cut, level: i64) -> Table
    requires has_finish { HasFinish zone_box.now }
    requires least { neg_ℤ most_taken_off ≤ℤ level }
    requires most { level ≤ℤ pos (2 ^ 31) }
    ensures entries { (club : ℕ) → club < set_width → entry result club
        ≡ level +ℤ own_end cut zone_box.now.sheet zone_box.now.season zone_box.now.zone club }
    ensures sized { IsClubTable most_credits result }
{
    let mut table = [level; WIDTH];
    let _sheet = zone_box.sheet();
    let clubs = zone_box.season().deductions().len() as u8;
    for club in 0..clubs {
        table[club as usize] = level + end_of(zone_box, cut, club);
    }
    table
}

// The end of a club's points that the cut counts.
fn end_of(zone_box: &ZoneBox, cut: Cut, club: u8) -> i64
    requires has_finish { HasFinish zone_box.now }
    requires in_range { club < length zone_box.now.sheet.clubs }
    ensures value { result
        ≡ own_end cut zone_box.now.sheet zone_box.now.season zone_box.now.zone club }
    ensures within { (neg_ℤ (pos 8160) ≤ℤ result) × (result ≤ℤ pos 8160) }
{
    match cut {
        Cut::Floor => i64::from(zone_box.low(club)),
        Cut::Ceiling => -i64::from(zone_box.high(club)),
    }
}

/// The club's entry is above 0.
pub fn is_over(table: &Table, club: u8) -> bool
    requires { club < set_width }
    ensures { result ≡ int_lt (pos 0) (entry table.now club) }
{
    table[club as usize] > 0
}

/// Adds to a club's entry.
pub fn credit(table: &mut Table, club: u8, amount: i64)
    requires in_range { club < set_width }
    requires least { least_entry ≤ℤ entry table.old club }
    requires most { entry table.old club ≤ℤ most_entry }
    requires small { (neg_ℤ (pos 3) ≤ℤ amount) × (amount ≤ℤ pos 3) }
    ensures { table.new ≡ slice_set table.old club (entry table.old club +ℤ amount) }
{
    table[club as usize] += amount;
}
