//! The laws of answers that there are: functions that do nothing, with the laws as their contracts.

ghost use Rattle.cup_decided.specs.inside.CupsDecided.{ClubsHaveItems, SidesAreDecided};

/// Each side of each club has a joint finish that shows it, or lines that refute it.
pub fn sides_are_decided()
    ensures { SidesAreDecided }
{}

/// Each club has a word that is true of it, and lines that show what that word has to show.
pub fn clubs_have_items()
    ensures { ClubsHaveItems }
{}
