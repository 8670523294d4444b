//! The parts of the excess of every set: what each club adds alone, and what each two clubs that
//! still meet add beyond that if both are in the set.

ghost use Rattle.std.specs.Prelude.{◌≡◌, ◌≢◌, ◌⊎◌, ℕ, ◌+◌, ◌^◌, ◌<◌, ◌≤◌, ◌+ℤ◌, ◌≤ℤ◌, pos, neg_ℤ};
ghost use Rattle.std.specs.Prelude.{Bool};
ghost use Rattle.std.specs.Prelude.{◌&&◌, List, false, true, length, if◌then◌else◌, is_ok};
ghost use Rattle.std.specs.Prelude.{IfOk, MatchOption};
ghost use Rattle.std.specs.List.{All};
ghost use Rattle.league_core.specs.declared.club_set.ClubSet.{ClubSet};
ghost use Rattle.league_core.specs.game.ClubSets.{clubs_in};
ghost use Rattle.league_core.specs.game.Limits.{most_fixtures};
ghost use Rattle.score_box.specs.inside.Points.{most_taken_off};
ghost use Rattle.score_box.specs.inside.ZoneBoxViews.{HasFinish};
ghost use Rattle.flow_bound.specs.inside.Parts.{ArePairs, IsPartOf, IsClubTable, excess_in};
ghost use Rattle.flow_bound.specs.inside.Parts.{most_credits, has_both, side_of, sum_of_pairs};
ghost use Rattle.flow_bound.specs.inside.Fixtures.{excess_over, pair_at, pairs_in};

use crate::cut::Cut;
use crate::table::{Table, own_excess_table};
use crate::worth::surplus_of;
use league_core::{ClubSet, Fixture, OutOfMemory};
use score_box::ZoneBox;
use std::alloc::Global;

/// Two clubs that still meet, and what their match adds if both are in the set, beyond what it adds
/// to each alone.
#[derive(Clone, Copy, Default)]
pub struct Pair {
    pub home: u8,
    pub away: u8,
    pub surplus: u8,
}

/// What each club adds to the excess over a level alone. With the pairs of the box it is the
/// excess of every set.
pub fn own_entries(zone_box: &ZoneBox, cut: Cut, level: i64) -> Table
    requires has_finish { HasFinish zone_box.now }
    requires least { neg_ℤ most_taken_off ≤ℤ level }
    requires most { level ≤ℤ pos (2 ^ 31) }
    ensures excess { (set : ClubSet)
        → excess_in result (pairs_in cut zone_box.now) (side_of set)
        ≡ excess_over cut zone_box.now.sheet zone_box.now.season zone_box.now.zone level
        (clubs_in set) }
    ensures apart { All (λ pair. pair.home ≢ pair.away) (pairs_in cut zone_box.now) }
    ensures sized { IsClubTable most_credits result }
{
    let _sheet = zone_box.sheet();
    let _season = zone_box.season();
    own_excess_table(zone_box, cut, level)
}

/// The pair of a match that is not played, if both its clubs are in the set and it has a surplus.
pub fn pair_within(zone_box: &ZoneBox, cut: Cut, number: u16, set: ClubSet) -> Option<Pair>
    requires has_finish { HasFinish zone_box.now }
    requires in_range { number < length zone_box.now.season.scores }
    ensures { MatchOption result
        ((has_both (side_of set) (pair_at cut zone_box.now number) ≡ false)
        ⊎ ((pair_at cut zone_box.now number).surplus ≡ 0))
        (λ pair. (pair ≡ pair_at cut zone_box.now number)
        × (has_both (side_of set) pair ≡ true) × (pair.home ≢ pair.away) × (pair.surplus ≤ 3)) }
{
    let _season = zone_box.season();
    let _cell = zone_box.cell(number);
    let fixture = zone_box.sheet().fixtures.as_slice()[number as usize];
    if !are_both(set, fixture) {
        return None;
    }
    let surplus = surplus_of(zone_box.outcomes_left(number), cut);
    if surplus == 0 {
        return None;
    }
    Some(Pair {
        home: fixture.home,
        away: fixture.away,
        surplus,
    })
}

// The set has both clubs of the match.
fn are_both(set: ClubSet, fixture: Fixture) -> bool
    ensures { result ≡ (side_of set fixture.home && side_of set fixture.away) }
{
    set.has(fixture.home) && set.has(fixture.away)
}

/// The pairs of the clubs of a set, in memory.
pub fn pairs_of(
    alloc: Global,
    zone_box: &ZoneBox,
    cut: Cut,
    set: ClubSet,
) -> Result<Vec<Pair>, OutOfMemory>
    requires has_finish { HasFinish zone_box.now }
    ensures sums { IfOk result (λ pairs. (side : ℕ → Bool) → IsPartOf side (side_of set)
        → sum_of_pairs (has_both side) pairs.items
        ≡ sum_of_pairs (has_both side) (pairs_in cut zone_box.now)) }
    ensures pairs { IfOk result (λ pairs. ArePairs most_fixtures pairs.items) }
{
    let unplayed = zone_box.unplayed();
    let _sheet = zone_box.sheet();
    let _season = zone_box.season();
    let mut pairs = Vec::new(alloc);
    for i in 0..unplayed.len() {
        push_pair(&mut pairs, zone_box, cut, unplayed[i], set)?;
    }
    Ok(pairs)
}

// Adds the pair of a match, if both its clubs are in the set.
fn push_pair(
    pairs: &mut Vec<Pair>,
    zone_box: &ZoneBox,
    cut: Cut,
    number: u16,
    set: ClubSet,
) -> Result<(), OutOfMemory>
    requires has_finish { HasFinish zone_box.now }
    requires in_range { number < length zone_box.now.season.scores }
    ensures sums { IfOk result (λ _. (side : ℕ → Bool) → IsPartOf side (side_of set)
        → sum_of_pairs (has_both side) pairs.new.items
        ≡ sum_of_pairs (has_both side) pairs.old.items
        + (if has_both side (pair_at cut zone_box.now number)
        then (pair_at cut zone_box.now number).surplus else 0)) }
    ensures pairs { IfOk result (λ _. (fixtures : ℕ) → ArePairs fixtures pairs.old.items
        → ArePairs (fixtures + 1) pairs.new.items) }
{
    if let Some(pair) = pair_within(zone_box, cut, number, set) {
        pairs.push(pair)?;
    }
    Ok(())
}
