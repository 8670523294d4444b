//! The search for a match between two clubs of a group, several matches at a time.

ghost use Rattle.std.specs.Prelude.{◌≡◌, ◌<◌, ◌≤◌, ◌+◌, true, length, slice_index_or};
ghost use Rattle.league_core.specs.declared.club_set.ClubSet.{ClubSet};
ghost use Rattle.league_core.specs.declared.sheet.Fixture.{Fixture};
ghost use Rattle.score_box.specs.inside.Boxes.{IsSetOf};
ghost use Rattle.score_box.specs.inside.OpenSides.{NoneBetween, are_of_group, is_side};

use league_core::ClubSet;

/// The first place, from the one given on, where both clubs are of the group; if there is none, how
/// many places there are.
#[inline(always)]
pub fn next_within(sides: &[ClubSet], from: usize, group: ClubSet) -> usize
    requires { from ≤ length sides.now }
    ensures from { from ≤ result }
    ensures within { result ≤ length sides.now }
    ensures before { NoneBetween sides.now group from result }
    ensures found { result < length sides.now → (match : Fixture)
        → ((d : ClubSet) → IsSetOf (slice_index_or sides.now result d) (is_side match))
        → are_of_group group match ≡ true }
{
    let mut place = skip_eights(sides, from, group);
    while place < sides.len() && !lies_within(sides[place], group) {
        place += 1;
    }
    place
}

// A place up to which no match is between two clubs of the group: the end of the eights that have
// none.
#[inline(always)]
fn skip_eights(sides: &[ClubSet], from: usize, group: ClubSet) -> usize
    requires { from ≤ length sides.now }
    ensures from { from ≤ result }
    ensures within { result ≤ length sides.now }
    ensures before { NoneBetween sides.now group from result }
{
    let mut place = from;
    while sides.len() - place >= 8 && has_none_in_eight(sides, place, group) {
        place += 8;
    }
    place
}

// None of the eight matches from a place on is between two clubs of the group. Each is looked at,
// so that they are compared side by side.
#[inline(always)]
fn has_none_in_eight(sides: &[ClubSet], from: usize, group: ClubSet) -> bool
    requires { from + 8 ≤ length sides.now }
    ensures { result ≡ true → NoneBetween sides.now group from (from + 8) }
{
    has_none_in_four(sides, from, group) & has_none_in_four(sides, from + 4, group)
}

#[inline(always)]
fn has_none_in_four(sides: &[ClubSet], from: usize, group: ClubSet) -> bool
    requires { from + 4 ≤ length sides.now }
    ensures { result ≡ true → NoneBetween sides.now group from (from + 4) }
{
    !lies_within(sides[from], group)
        & !lies_within(sides[from + 1], group)
        & !lies_within(sides[from + 2], group)
        & !lies_within(sides[from + 3], group)
}

/// The two clubs of a match are both of the group.
#[inline(always)]
pub fn lies_within(side: ClubSet, group: ClubSet) -> bool
    ensures { (match : Fixture) → IsSetOf side (is_side match) → result ≡ are_of_group group match }
{
    side.without(group).is_empty()
}
