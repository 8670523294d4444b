//! Parts of what may still happen in a season: tests, literals, zones, and why a zone can be left
//! out.

use crate::club_set::ClubSet;
use crate::listing::Listing;

/// A test of one fixture's score, or of one rival's rank against the club of a question. Fixtures
/// and clubs go by their numbers from 0.
#[derive(Clone, Copy, Debug, PartialEq, Eq)]
pub enum Test {
    /// The home side wins.
    Home { fixture: u16 },
    /// The match is drawn.
    Draw { fixture: u16 },
    /// The home side scores at most so many goals.
    HomeMost { fixture: u16, most: u8 },
    /// The away side scores at most so many goals.
    AwayMost { fixture: u16, most: u8 },
    /// This club ranks before the question's club.
    Rival { club: u8 },
}

/// A test that has to be true, or with `yes` false has to be false.
#[derive(Clone, Copy, Debug, PartialEq, Eq)]
pub struct Literal {
    pub test: Test,
    pub yes: bool,
}

/// The finishes and lots at which each of the literals is true.
#[derive(Drop)]
pub struct Zone {
    pub literals: Listing<Literal>,
}

/// Why a question holds nowhere in a zone.
#[derive(Clone, Copy, Debug, PartialEq, Eq)]
pub enum Reason {
    /// So many rivals are marked before the club that none of the first places is left for it, or
    /// so many behind it that it is inside.
    Count,
    /// The club's points miss the question's window.
    Window,
    /// A floor cut: these rivals cannot all stay within the club's most points.
    Low(ClubSet),
    /// A ceiling cut: these rivals cannot all come up to the club's least points.
    High(ClubSet),
    /// Every outcome is fixed, and points and criteria are sure of enough rivals, or contradict a
    /// mark.
    Tie,
}
