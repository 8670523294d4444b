//! Where a club of a cup plays.

ghost use Rattle.std.specs.Prelude.{◌≡◌, ◌≤◌, ◌<◌, IfSome, None, length};
ghost use Rattle.cup_sheet.specs.Cups.{IsCup, clubs_together};
ghost use Rattle.cup_sheet.specs.JointFinishes.{is_in_block};
ghost use Rattle.cup_groups.specs.inside.ClubSeats.{IsSeatOf, seat_block};

use cup_sheet::Cup;
use league_core::Sheet;

/// A club of a cup in its group.
#[derive(Clone, Copy, Debug, PartialEq, Eq)]
pub struct ClubSeat {
    /// Its group's number, from 0.
    pub group: u8,
    /// The first club of its group, by its number in the cup, from 0.
    pub first: u8,
    /// How many clubs its group has.
    pub count: u8,
    /// Its own number in the group, from 0.
    pub own: u8,
}

impl ClubSeat {
    /// The club of the cup is one of its group.
    pub fn has(&self, club: u8) -> bool
        ensures { result ≡ is_in_block (seat_block self.now) club }
    {
        self.first <= club && club - self.first < self.count
    }
}

/// Where a club plays, by its number in the cup from 0; none exactly if the cup has no such club.
pub fn seat_of(cup: &Cup, club: u8) -> Option<ClubSeat>
    requires cup { IsCup cup.now }
    ensures found { IfSome result (IsSeatOf cup.now club) }
    ensures absent { result ≡ None → clubs_together cup.now.groups ≤ club }
{
    let groups = cup.groups.as_slice();
    let mut first = 0;
    for group in 0..groups.len() {
        let count = clubs_in(&groups[group]);
        if club - first < count {
            return Some(ClubSeat {
                group: group as u8,
                first,
                count,
                own: club - first,
            });
        }
        first += count;
    }
    None
}

fn clubs_in(group: &Sheet) -> u8
    requires { length group.now.clubs < 256 }
    ensures { result ≡ length group.now.clubs }
{
    group.clubs.len() as u8
}
