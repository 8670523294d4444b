//! The rivals of a club, and how they are marked, as sets.

ghost use Rattle.std.specs.Prelude.{◌≡◌, ◌≤◌, length};
ghost use Rattle.league_core.specs.game.ClubSets.{clubs_in};
ghost use Rattle.league_core.specs.search.Zones.{rivals_of};
ghost use Rattle.tie_bound.specs.inside.Rivals.{AreRivalsIn};

use league_core::{ClubSet, Sheet};
use score_box::ZoneBox;

/// The rivals of a club, and those that the zone marks before and after it. The two sets of marks
/// may have other clubs too.
#[derive(Clone, Copy)]
pub struct Rivals {
    pub all: ClubSet,
    pub before: ClubSet,
    pub after: ClubSet,
}

impl Rivals {
    /// The rivals of the club in the box.
    pub fn of(zone_box: &ZoneBox, club: u8) -> Rivals
        ensures { AreRivalsIn zone_box.now club result }
    {
        Rivals {
            all: rivals_of(zone_box.sheet(), club),
            before: zone_box.before(),
            after: zone_box.after(),
        }
    }
}

/// All clubs but the one.
pub fn rivals_of(sheet: &Sheet, club: u8) -> ClubSet
    requires { length sheet.now.clubs ≤ 24 }
    ensures { clubs_in result ≡ rivals_of sheet.now club }
{
    let clubs = sheet.clubs.len() as u8;
    if clubs <= club {
        ClubSet::first(clubs)
    } else {
        ClubSet::single(club).others(clubs)
    }
}
