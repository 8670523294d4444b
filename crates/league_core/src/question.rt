//! What can be asked of a season.

ghost use Rattle.std.specs.Prelude.{◌≡◌};
ghost use Rattle.league_core.specs.game.Questions.{is_in_window, is_on_side};

/// The side of the line that a question asks for.
#[derive(Clone, Copy, Debug, PartialEq, Eq)]
pub enum Claim {
    /// The club ends among the first k.
    Inside,
    /// The club ends after the first k.
    Outside,
}

impl Claim {
    /// A club that ends inside the line, or outside it, is on the side that is asked for.
    pub fn is_on_side(self, inside: bool) -> bool
        ensures { result ≡ is_on_side inside self }
    {
        match self {
            Claim::Inside => inside,
            Claim::Outside => !inside,
        }
    }
}

/// Whether a club can end on one side of a line with its points in a window.
#[derive(Clone, Copy, Debug, PartialEq, Eq)]
pub struct Question {
    /// The club, by its number from 0.
    pub club: u8,
    /// The number k of first places.
    pub line: u8,
    pub claim: Claim,
    /// The least points of the window. The window from -99 to 1,800 leaves nothing out.
    pub low: i32,
    /// The greatest points of the window.
    pub high: i32,
}

impl Question {
    /// The points are in the window.
    pub fn is_in_window(&self, points: i32) -> bool
        ensures { result ≡ is_in_window self.now points }
    {
        self.low <= points && points <= self.high
    }
}
