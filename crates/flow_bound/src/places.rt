//! The clubs of a set numbered one after another: the nodes of a network.

ghost use Rattle.flow_bound.specs.inside.Network.{IsNumbering};

use crate::table::WIDTH;
use league_core::ClubSet;
use league_core::limits::SET_WIDTH;

/// For each club how many clubs of a set come before it.
pub type Places = [u16; WIDTH];

pub fn places_of(set: ClubSet) -> Places
    ensures { IsNumbering set result }
{
    let mut places = [0; WIDTH];
    let mut count = 0;
    for club in 0..SET_WIDTH {
        places[club as usize] = count;
        count += u16::from(set.has(club));
    }
    places
}
