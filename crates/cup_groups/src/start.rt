//! Where the numbers of a group begin in the cup.

ghost use Rattle.std.specs.Prelude.{◌≡◌, ◌<◌, ◌≤◌, ◌+◌, length};
ghost use Rattle.cup_sheet.specs.Cups.{IsCup, clubs_together};
ghost use Rattle.cup_sheet.specs.CupLimits.{most_cup_clubs, most_cup_fixtures};
ghost use Rattle.cup_groups.specs.GroupStarts.{start_after, start_of_group};

use cup_sheet::Cup;
use league_core::Sheet;

/// The first numbers of a group.
#[derive(Clone, Copy, Debug, PartialEq, Eq)]
pub struct GroupStart {
    /// Its first club, by its number in the cup, from 0.
    pub club: u8,
    /// Its first fixture, by its number in the cup, from 0.
    pub fixture: u16,
}

/// Those of a group of the cup, by the group's number from 0.
pub fn group_start(cup: &Cup, number: u8) -> GroupStart
    requires cup { IsCup cup.now }
    requires number { number < length cup.now.groups }
    ensures { result ≡ start_of_group cup.now.groups number }
{
    let groups = cup.groups.as_slice();
    let mut start = GroupStart {
        club: 0,
        fixture: 0,
    };
    for group in 0..number as usize {
        start = start.after(&groups[group]);
    }
    start
}

/// How many clubs a cup has.
pub fn club_count(cup: &Cup) -> u8
    requires { IsCup cup.now }
    ensures { result ≡ clubs_together cup.now.groups }
{
    let groups = cup.groups.as_slice();
    let last = groups.len() - 1;
    group_start(cup, last as u8).club + groups[last].clubs.len() as u8
}

impl GroupStart {
    // Those of the group after this one.
    fn after(self, group: &Sheet) -> GroupStart
        requires clubs { self.club + length group.now.clubs ≤ most_cup_clubs }
        requires fixtures { self.fixture + length group.now.fixtures ≤ most_cup_fixtures }
        ensures { result ≡ start_after self group.now }
    {
        GroupStart {
            club: self.club + group.clubs.len() as u8,
            fixture: self.fixture + group.fixtures.len() as u16,
        }
    }
}
