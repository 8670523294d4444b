//! Clubs whose points alone show that no set needs them.
//!
//! In a match a club adds to a set no more than what the match leaves open for it. So if its own
//! entry and all that its matches leave open come to nothing, it is no loss to any set. Both ends
//! of its points are kept in the box: no match is looked at.

ghost use Rattle.std.specs.Prelude.{◌≡◌, ℕ, ◌<◌, ◌≤ℤ◌, ◌+ℤ◌, ◌&&◌, true, false, pos, neg_ℤ};
ghost use Rattle.std.specs.Prelude.{int_lt};
ghost use Rattle.league_core.specs.game.Limits.{set_width};
ghost use Rattle.score_box.specs.inside.ZoneBoxViews.{HasFinish};
ghost use Rattle.flow_bound.specs.declared.cut.Cut.{Cut};
ghost use Rattle.flow_bound.specs.inside.Parts.{IsClubTable, KeepsExcess, entry, most_credits};
ghost use Rattle.flow_bound.specs.inside.Parts.{side_of};
ghost use Rattle.flow_bound.specs.inside.Fixtures.{may_add, pairs_in};

use crate::table::Table;
use league_core::ClubSet;
use score_box::ZoneBox;

/// The clubs of a set that may be needed, as far as their own points show.
pub fn prefilter_by_points(zone_box: &ZoneBox, alone: &Table, marked: ClubSet) -> ClubSet
    requires has_finish { HasFinish zone_box.now }
    requires sized { IsClubTable most_credits alone.now }
    ensures kept { (cut : Cut) → KeepsExcess alone.now (pairs_in cut zone_box.now)
        (side_of marked) (side_of result) }
    ensures low { (club : ℕ) → side_of marked club ≡ true → side_of result club ≡ false
        → entry alone.now club ≤ℤ pos 0 }
{
    let _sheet = zone_box.sheet();
    let _season = zone_box.season();
    may_add_among(zone_box, alone, marked)
}

// The clubs of a set that may add something.
fn may_add_among(zone_box: &ZoneBox, alone: &Table, set: ClubSet) -> ClubSet
    requires has_finish { HasFinish zone_box.now }
    requires sized { IsClubTable most_credits alone.now }
    ensures { (club : ℕ) → side_of result club
        ≡ (side_of set club && may_add zone_box.now alone.now club) }
{
    set.keep(|club| may_add(zone_box, alone, club))
}

// What a club adds alone is above 0, together with all that its matches leave open.
fn may_add(zone_box: &ZoneBox, alone: &Table, club: u8) -> bool
    requires has_finish { HasFinish zone_box.now }
    requires sized { IsClubTable most_credits alone.now }
    requires in_range { club < set_width }
    ensures { result ≡ may_add zone_box.now alone.now club }
{
    if zone_box.season().deductions().len() <= usize::from(club) {
        return true;
    }
    let left_open = zone_box.high(club) - zone_box.low(club);
    is_over_with(alone, club, i64::from(left_open))
}

// The club's entry is above 0 with this much more.
fn is_over_with(alone: &Table, club: u8, more: i64) -> bool
    requires sized { IsClubTable most_credits alone.now }
    requires in_range { club < set_width }
    requires more { (neg_ℤ (pos 20000) ≤ℤ more) × (more ≤ℤ pos 20000) }
    ensures { result ≡ int_lt (pos 0) (entry alone.now club +ℤ more) }
{
    alone[club as usize] + more > 0
}
