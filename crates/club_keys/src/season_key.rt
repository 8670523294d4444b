//! The key of a club as a season stands.

ghost use Rattle.std.specs.Prelude.{◌≡◌, ◌<◌, ◌≤ℤ◌, pos, neg_ℤ, length};
ghost use Rattle.league_core.specs.game.Seasons.{IsLeague};
ghost use Rattle.league_core.specs.search.Keys as keys;
ghost use Rattle.club_keys.specs.inside.KeyEnds.{key_parts};

use crate::club_key::ClubKey;
use league_core::{Season, Sheet};
use tie_criteria::{points_of, tail_of};

/// The key of a club, by its number from 0, over the matches that are played: at a finish over all.
pub fn key_of(sheet: &Sheet, season: &Season, club: u8) -> ClubKey
    requires league { IsLeague sheet.now season.now }
    requires in_range { club < length sheet.now.clubs }
    ensures { key_parts result ≡ keys.key_of sheet.now season.now club }
{
    let points = points_of(sheet, season, club);
    let tail = tail_of(sheet, season, club);
    let by_rank = rank_part(sheet, club);
    ClubKey {
        points,
        difference: tail.difference,
        goals: tail.scored,
        away_goals: tail.away_scored,
        wins: tail.wins,
        away_wins: tail.away_wins,
        by_rank,
    }
}

/// The last part of a club's key: a thousand less its fixed rank, so that the lower rank has the
/// greater number.
pub fn rank_part(sheet: &Sheet, club: u8) -> i32
    ensures value { result ≡ keys.rank_part sheet.now club }
    ensures within { (neg_ℤ (pos 65000) ≤ℤ result) × (result ≤ℤ pos 1000) }
{
    1000 - i32::from(sheet.rank_of(club))
}
