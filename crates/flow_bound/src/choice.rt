//! Which set is found: a club alone if one is enough, otherwise the least best set.

ghost use Rattle.std.specs.Prelude.{◌≡◌, ℕ, pos, ◌≤ℤ◌, MatchOption, IfOk, OnErr};
ghost use Rattle.score_box.specs.inside.ZoneBoxViews.{HasFinish};
ghost use Rattle.flow_bound.specs.inside.Parts.{HasNoExcess, IsAnsweredSet, IsClubTable};
ghost use Rattle.flow_bound.specs.inside.Parts.{IsFirstOver, IsLeftOpenIn, NoneOver, most_credits};
ghost use Rattle.flow_bound.specs.inside.Parts.{side_of};
ghost use Rattle.flow_bound.specs.inside.Fixtures.{pairs_in};

use crate::cut::Cut;
use crate::keep::FlowKeep;
use crate::network::greatest;
use crate::peel::peel;
use crate::prefilter::prefilter_by_points;
use crate::table::{Table, is_over};
use crate::tally::pairs_of;
use league_core::{ClubSet, OutOfMemory};
use score_box::ZoneBox;
use std::alloc::Global;

/// A set of marked clubs that has an excess, or none if no set has. Takes memory only if the clubs
/// alone and the peel leave it open.
pub fn choose(
    alloc: Global,
    zone_box: &ZoneBox,
    cut: Cut,
    alone: &Table,
    marked: ClubSet,
    keep: &mut FlowKeep,
) -> Result<Option<ClubSet>, OutOfMemory>
    requires has_finish { HasFinish zone_box.now }
    requires sized { IsClubTable most_credits alone.now }
    ensures answer { IfOk result (λ answer. MatchOption answer
        (HasNoExcess alone.now (pairs_in cut zone_box.now) (side_of marked))
        (IsAnsweredSet alone.now (pairs_in cut zone_box.now) (side_of marked))) }
    ensures spared { OnErr result
        (IsLeftOpenIn alone.now (pairs_in cut zone_box.now) (side_of marked)) }
{
    let prefilter_by_points = prefilter_by_points(zone_box, alone, marked);
    if prefilter_by_points.is_empty() {
        return Ok(None);
    }
    if let Some(club) = first_over(alone, prefilter_by_points) {
        return Ok(Some(ClubSet::single(club)));
    }
    let rest = peel(zone_box, cut, alone, prefilter_by_points);
    if rest.is_empty() {
        return Ok(None);
    }
    let pairs = pairs_of(alloc, zone_box, cut, rest)?;
    let found = greatest(alloc, alone, pairs.as_slice(), rest, keep)?;
    Ok(found)
}

// The first club of a set whose own entry is above 0.
fn first_over(alone: &Table, marked: ClubSet) -> Option<u8>
    requires { IsClubTable most_credits alone.now }
    ensures { MatchOption result (NoneOver alone.now (side_of marked))
        (IsFirstOver alone.now (side_of marked)) }
{
    for club in marked.clubs() {
        if is_over(alone, club) {
            return Some(club);
        }
    }
    None
}
