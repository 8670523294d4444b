//! The least set of greatest excess, by one minimum cut.
//!
//! Each club that is left is a node. A pair is an arc from its home club to its away club, and its
//! surplus is put to the home club's weight: a side that has the home club alone cuts the arc and
//! so loses it again. A club of positive weight hangs on the source, one of negative weight on the
//! sink:
//!
//!     source --weight--> club --surplus--> club --(-weight)--> sink
//!
//! A cut takes from the positive weights just the excess of the clubs on its source side.

ghost use Rattle.std.specs.Prelude.{◌≡◌, ◌<◌, ◌≤◌, ◌+◌, ◌*◌, ◌≤ℤ◌, ◌+ℤ◌, ◌-ℤ◌, ◌&&◌, ℕ, true, pos};
ghost use Rattle.std.specs.Prelude.{neg_ℤ, Bool, if◌then◌else◌, length, None, IfOk, MatchOption};
ghost use Rattle.std.specs.Prelude.{IsTrue};
ghost use Rattle.league_core.specs.game.ClubSets.{clubs_in};
ghost use Rattle.flow_net.specs.inside.Cut.{IsCut, capacity_of, marked};
ghost use Rattle.league_core.specs.game.Limits.{most_fixtures, set_width};
ghost use Rattle.flow_bound.specs.inside.Parts.{most_credits, most_entry, ArePairs, HasNoExcess};
ghost use Rattle.flow_bound.specs.inside.Parts.{IsLeastBest, IsClubTable, entry, in_both, side_of};
ghost use Rattle.flow_bound.specs.inside.Parts.{sum_of_pairs, sum_of_side};
ghost use Rattle.flow_bound.specs.inside.Network.{IsNumbering, has_home_in, parts_pair_in, through};

use crate::keep::{FlowKeep, max_flow_from};
use crate::places::{Places, places_of};
use crate::table::{Table, WIDTH, credit};
use crate::tally::Pair;
use flow_net::Net;
use league_core::limits::SET_WIDTH;
use league_core::{ClubSet, OutOfMemory};
use std::alloc::Global;

/// The least of the sets of greatest excess among these clubs, or none if no set has any.
pub fn greatest(
    alloc: Global,
    alone: &Table,
    pairs: &[Pair],
    rest: ClubSet,
    keep: &mut FlowKeep,
) -> Result<Option<ClubSet>, OutOfMemory>
    requires sized { IsClubTable most_credits alone.now }
    requires pairs { ArePairs most_fixtures pairs.now }
    ensures { IfOk result (λ answer. MatchOption answer
        (HasNoExcess alone.now pairs.now (side_of rest))
        (λ set. IsLeastBest alone.now pairs.now (side_of rest) (side_of set))) }
{
    let places = places_of(rest);
    let source = u16::from(rest.len());
    let mut net = Net::new(alloc, source + 2, WIDTH + pairs.len())?;
    let goal = add_clubs(
        &mut net,
        &weights_of(alone, pairs, rest),
        rest,
        &places,
        source,
    );
    add_pairs(&mut net, pairs, rest, &places);
    let flow = max_flow_from(alloc, net, source, source + 1, keep)?;
    if flow.value < goal {
        Ok(Some(clubs_of(&flow.source_side, rest, &places)))
    } else {
        Ok(None)
    }
}

// Each club's own entry with the surplus of its pairs at home, if only clubs of `rest` count.
fn weights_of(alone: &Table, pairs: &[Pair], rest: ClubSet) -> Table
    requires sized { IsClubTable most_credits alone.now }
    requires pairs { ArePairs most_fixtures pairs.now }
    ensures sums { (side : ℕ → Bool) → sum_of_side result side
        ≡ sum_of_side alone.now side
        +ℤ pos (sum_of_pairs (has_home_in (side_of rest) side) pairs.now) }
    ensures sized { IsClubTable 1800 result }
{
    let mut weights = *alone;
    for pair in pairs {
        credit_home(&mut weights, *pair, rest);
    }
    weights
}

// Adds the surplus of a pair of the set to the entry of its home club.
fn credit_home(table: &mut Table, pair: Pair, set: ClubSet)
    requires small { pair.surplus ≤ 3 }
    requires sized { (credits : ℕ) × (credits < 5 * most_fixtures) × IsClubTable credits table.old }
    ensures sums { (side : ℕ → Bool) → sum_of_side table.new side
        ≡ sum_of_side table.old side
        +ℤ pos (if has_home_in (side_of set) side pair then pair.surplus else 0) }
    ensures sized { (credits : ℕ) → IsClubTable credits table.old
        → IsClubTable (credits + 1) table.new }
{
    if !set.has(pair.home) || !set.has(pair.away) {
        return;
    }
    credit(table, pair.home, i64::from(pair.surplus));
}

// Adds an arc for each club of the set, and returns the positive weights together. The source comes
// after the clubs, and the sink after the source.
fn add_clubs(net: &mut Net, weights: &Table, set: ClubSet, places: &Places, source: u16) -> u64
    requires empty { length net.old.arcs ≡ 0 }
    requires room { set_width ≤ net.old.room }
    requires nodes { net.old.nodes ≡ source + 2 }
    requires few { source ≤ set_width }
    requires clubs { source ≡ length (clubs_in set) }
    requires numbered { IsNumbering set places.now }
    requires sized { IsClubTable 1800 weights.now }
    ensures cut { (side : ℕ → Bool) → IsCut source (source + 1) side
        → pos (capacity_of side net.new.arcs)
        +ℤ sum_of_side weights.now (in_both (side_of set) (through places.now side)) ≡ pos result }
    ensures count { length net.new.arcs ≤ set_width }
    ensures nodes { net.new.nodes ≡ net.old.nodes }
    ensures room { net.new.room ≡ net.old.room }
{
    let mut total = 0;
    for club in 0..SET_WIDTH {
        let place = club as usize;
        total += add_club(net, set, club, places[place], source, weights[place]);
    }
    total
}

// Adds the arc of a club of the set, from the source or to the sink, and returns its weight if that
// is positive.
fn add_club(net: &mut Net, set: ClubSet, club: u8, node: u16, source: u16, weight: i64) -> u64
    requires room { length net.old.arcs < net.old.room }
    requires nodes { net.old.nodes ≡ source + 2 }
    requires few { source ≤ set_width }
    requires node { side_of set club ≡ true → node < source }
    requires least { neg_ℤ most_entry ≤ℤ weight }
    requires most { weight ≤ℤ most_entry }
    ensures cut { (side : ℕ → Bool) → IsCut source (source + 1) side
        → pos (capacity_of side net.new.arcs)
        +ℤ (if side_of set club && side node then weight else pos 0)
        ≡ pos (capacity_of side net.old.arcs) +ℤ pos result }
    ensures within { pos result ≤ℤ most_entry }
    ensures count { length net.new.arcs ≤ length net.old.arcs + 1 }
    ensures nodes { net.new.nodes ≡ net.old.nodes }
    ensures room { net.new.room ≡ net.old.room }
{
    if !set.has(club) {
        return 0;
    }
    if weight > 0 {
        net.add_arc(source, node, weight as u32);
        weight as u64
    } else {
        net.add_arc(node, source + 1, (-weight) as u32);
        0
    }
}

// Adds an arc for each pair in the set.
fn add_pairs(net: &mut Net, pairs: &[Pair], set: ClubSet, places: &Places)
    requires room { length net.old.arcs + length pairs.now ≤ net.old.room }
    requires nodes { net.old.nodes ≡ length (clubs_in set) + 2 }
    requires numbered { IsNumbering set places.now }
    ensures cut { (side : ℕ → Bool) → capacity_of side net.new.arcs
        ≡ capacity_of side net.old.arcs
        + sum_of_pairs (parts_pair_in (side_of set) (through places.now side)) pairs.now }
    ensures nodes { net.new.nodes ≡ net.old.nodes }
{
    for pair in pairs {
        add_pair(net, *pair, set, places);
    }
}

// Adds the arc of a pair, if it is in the set.
fn add_pair(net: &mut Net, pair: Pair, set: ClubSet, places: &Places)
    requires room { length net.old.arcs < net.old.room }
    requires nodes { net.old.nodes ≡ length (clubs_in set) + 2 }
    requires numbered { IsNumbering set places.now }
    ensures cut { (side : ℕ → Bool) → capacity_of side net.new.arcs
        ≡ capacity_of side net.old.arcs
        + (if parts_pair_in (side_of set) (through places.now side) pair
        then pair.surplus else 0) }
    ensures count { length net.new.arcs ≤ length net.old.arcs + 1 }
    ensures nodes { net.new.nodes ≡ net.old.nodes }
    ensures room { net.new.room ≡ net.old.room }
{
    if !set.has(pair.home) || !set.has(pair.away) {
        return;
    }
    net.add_arc(
        places[pair.home as usize],
        places[pair.away as usize],
        u32::from(pair.surplus),
    );
}

// The clubs of a set whose nodes are marked.
fn clubs_of(marks: &[bool], set: ClubSet, places: &Places) -> ClubSet
    requires many { length (clubs_in set) ≤ length marks.now }
    requires numbered { IsNumbering set places.now }
    ensures { (club : ℕ) → side_of result club
        ≡ in_both (side_of set) (through places.now (marked marks.now)) club }
{
    set.keep(|club| marks[places[club as usize] as usize])
}
