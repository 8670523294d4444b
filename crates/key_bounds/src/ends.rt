//! Both ends of a key: the sums of a club, less what is taken off its points, and its rank.

ghost use Rattle.std.specs.Prelude.{◌≡◌, ◌<◌, ◌-ℤ◌, ◌∷◌, [], pos, length, slice_index};
ghost use Rattle.score_box.specs.inside.Totals.{AreTotalsNear};
ghost use Rattle.club_keys.specs.inside.KeyEnds.{key_parts, AreKeyEnds};

use crate::sums::club_ends;
use club_keys::{ClubKey, KeyEnds, rank_part};
use score_box::{Totals, ZoneBox};

/// What the zone of a box leaves of each part of a club's key, at the least and at the most, in one
/// walk over the fixtures. Clubs count from 0.
pub fn key_ends(zone_box: &ZoneBox, club: u8) -> KeyEnds
    requires { club < length zone_box.now.sheet.clubs }
    ensures { AreKeyEnds zone_box.now.sheet zone_box.now.season zone_box.now.zone club result }
{
    let sums = club_ends(zone_box, club);
    let off = deducted_from(zone_box, club);
    let by_rank = rank_part(zone_box.sheet(), club);
    KeyEnds {
        low: key_of(&sums.least, off, by_rank),
        high: key_of(&sums.greatest, off, by_rank),
    }
}

// The points that are taken off a club.
fn deducted_from(zone_box: &ZoneBox, club: u8) -> u8
    requires { club < length zone_box.now.sheet.clubs }
    ensures { result ≡ slice_index zone_box.now.season.deductions club }
{
    zone_box.season().deducted(club)
}

// The key of a club with these sums.
fn key_of(row: &Totals, off: u8, by_rank: i32) -> ClubKey
    requires { AreTotalsNear 153000 row.now }
    ensures { key_parts result ≡ (row.now.points -ℤ pos off) ∷ row.now.difference ∷ row.now.goals
        ∷ row.now.away_goals ∷ row.now.wins ∷ row.now.away_wins ∷ by_rank ∷ [] }
{
    ClubKey {
        points: row.points - i32::from(off),
        difference: row.difference,
        goals: row.goals,
        away_goals: row.away_goals,
        wins: row.wins,
        away_wins: row.away_wins,
        by_rank,
    }
}
