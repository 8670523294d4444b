//! How many points rivals can move until they pass the bound that their marks set. No clause
//! mentions it.

ghost use Rattle.std.specs.Prelude.{◌<◌};

/// More room than any rival can use up.
const UNBOUNDED: i32 = 1_000_000;

/// The room left to each of some rivals (that of all others is unbounded), and which of them has
/// least.
#[derive(Clone, Copy)]
pub struct SlackTable {
    of_clubs: [i32; 32],
    nearest: u8,
    least: i32,
    next: i32,
}

impl SlackTable {
    /// Unbounded room for each.
    pub fn unbounded() -> SlackTable {
        SlackTable {
            of_clubs: [UNBOUNDED; 32],
            nearest: 32,
            least: UNBOUNDED,
            next: UNBOUNDED,
        }
    }

    /// Takes in a rival that has so much room.
    pub fn put(&mut self, rival: u8, room: i32) {
        self.of_clubs[place_of(rival)] = room;
        if room < self.least {
            self.next = self.least;
            self.least = room;
            self.nearest = rival;
        } else if room < self.next {
            self.next = room;
        }
    }

    pub fn of(&self, rival: u8) -> i32 {
        self.of_clubs[place_of(rival)]
    }

    /// The least room that a rival other than this one has.
    pub fn least_other(&self, rival: u8) -> i32 {
        if rival == self.nearest {
            self.next
        } else {
            self.least
        }
    }
}

// Where the table of a club that a set has room for has it.
fn place_of(club: u8) -> usize
    ensures { result < 32 }
{
    usize::from(club % 32)
}
