//! A club that is compared with clubs of other groups.

ghost use Rattle.std.specs.Prelude.{◌≡◌, ◌<◌, ◌+◌, ℕ, ◌==◌, length, position};
ghost use Rattle.league_core.specs.game.Ranking.{lot_of};
ghost use Rattle.league_core.specs.game.Seasons.{IsLeague};
ghost use Rattle.cup_sheet.specs.JointFinishes.{GroupState};
ghost use Rattle.cup_sheet.specs.Qualifying.{is_before_across};
ghost use Rattle.cup_finish.specs.inside.Contenders.{IsContender, group_state};

use club_keys::{ClubKey, key_of};
use league_core::{Lots, Season, Sheet};

/// What a club of a group that has ended is compared by.
#[derive(Clone, Copy)]
pub(crate) struct Contender {
    /// The first club of its group, by its number in the cup, from 0.
    pub first: u8,
    /// The club itself, by its number in the cup.
    pub club: u8,
    pub key: ClubKey,
}

/// The club with this number in its group, whose first club is `first` in the cup.
pub(crate) fn contender_of(sheet: &Sheet, season: &Season, first: u8, own: u8) -> Contender
    requires league { IsLeague sheet.now season.now }
    requires in_range { own < length sheet.now.clubs }
    requires few { first + own < 256 }
    ensures { IsContender (group_state first sheet.now season.now) own result }
{
    Contender {
        first,
        club: first + own,
        key: key_of(sheet, season, own),
    }
}

impl Contender {
    /// Whether it is before the other: by the greater key, or else by the lots of the cup.
    pub(crate) fn is_before(&self, other: &Contender, lots: &Lots) -> bool
        ensures { (mine : GroupState) (own : ℕ) (group : GroupState) (rival : ℕ)
            → IsContender mine own self.now → IsContender group rival other.now
            → result ≡ is_before_across lots.now mine own group rival }
    {
        let by_key = self.key.order(&other.key);
        let by_lot = lot_of(lots, self.club).cmp(&lot_of(lots, other.club));
        by_key.then(by_lot).is_lt()
    }
}

// How many clubs are earlier in the lots.
fn lot_of(lots: &Lots, club: u8) -> usize
    ensures { result ≡ lot_of lots.now club }
{
    let order = lots.order();
    lot_in(order, club).unwrap_or(order.len())
}

fn lot_in(order: &[u8], club: u8) -> Option<usize>
    ensures { result ≡ position (λ drawn. drawn == club) order.now }
{
    order.iter().position(|drawn| *drawn == club)
}
