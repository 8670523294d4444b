//! Keys part by part, and which of two keys is farther out.

ghost use Rattle.std.specs.Prelude.{◌≡◌, ◌<◌, ◌↔◌, [], ◌∷◌, IsTrue, Some, slice_get, slice_set};
ghost use Rattle.club_keys.specs.inside.KeyEnds.{key_parts};
ghost use Rattle.cup_sheet.specs.KeyBounds as bounds;

use club_keys::ClubKey;
use league_core::Claim;

/// So many parts does a key have.
pub(crate) const KEY_PARTS: u8 = 7;

/// The key that is beyond all: above them for missing, below them for qualifying.
pub(crate) fn far_key(claim: Claim) -> ClubKey
    ensures { key_parts result ≡ bounds.far_key claim }
{
    match claim {
        Claim::Outside => same_parts(100_000),
        Claim::Inside => same_parts(-100_000),
    }
}

// The key with one number in each part.
fn same_parts(part: i32) -> ClubKey
    ensures { key_parts result ≡ part ∷ part ∷ part ∷ part ∷ part ∷ part ∷ part ∷ [] }
{
    ClubKey {
        points: part,
        difference: part,
        goals: part,
        away_goals: part,
        wins: part,
        away_wins: part,
        by_rank: part,
    }
}

/// The part at a place, from 0, in the order in which they decide.
pub(crate) fn part_of(key: &ClubKey, place: u8) -> i32
    requires { place < 7 }
    ensures { slice_get (key_parts key.now) place ≡ Some result }
{
    match place {
        0 => key.points,
        1 => key.difference,
        2 => key.goals,
        3 => key.away_goals,
        4 => key.wins,
        5 => key.away_wins,
        _ => key.by_rank,
    }
}

/// The key with another number in that part.
pub(crate) fn with_part(key: &ClubKey, place: u8, part: i32) -> ClubKey
    requires { place < 7 }
    ensures { key_parts result ≡ slice_set (key_parts key.now) place part }
{
    let mut changed = *key;
    match place {
        0 => changed.points = part,
        1 => changed.difference = part,
        2 => changed.goals = part,
        3 => changed.away_goals = part,
        4 => changed.wins = part,
        5 => changed.away_wins = part,
        _ => changed.by_rank = part,
    }
    changed
}

/// The key is the bound, or farther out: greater for missing, less for qualifying.
pub(crate) fn is_beyond(claim: Claim, bound: &ClubKey, key: &ClubKey) -> bool
    ensures { IsTrue result ↔ bounds.IsBeyond claim (key_parts bound.now) (key_parts key.now) }
{
    match claim {
        Claim::Outside => key.is_from(bound),
        Claim::Inside => bound.is_from(key),
    }
}
