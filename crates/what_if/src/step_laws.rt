//! The laws of steps: functions that do nothing, each with a law as contract.
//!
//! The statements are in `specs/inside/StepLaws.antt`.

ghost use Rattle.what_if.specs.inside.StepLaws.{AsksAreAboutUnplayed, OtherLinesAreEntries};

/// A line that asks about a fixture asks about one of the sheet that has no score.
pub fn lines_ask_about_unplayed_fixtures()
    ensures { AsksAreAboutUnplayed }
{}

/// A line that asks about no fixture is read as in every feed.
pub fn other_lines_are_read_as_in_every_feed()
    ensures { OtherLinesAreEntries }
{}
