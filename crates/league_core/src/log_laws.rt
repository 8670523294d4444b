//! The laws of events and of logs, the lists of them: functions that do nothing, each with laws as
//! contract.
//!
//! The statements are in `specs/laws/LogLaws.antt`.

ghost use Rattle.league_core.specs.laws.LogLaws.{EventsKeepTheSheet, EventsKeepResults};
ghost use Rattle.league_core.specs.laws.LogLaws.{SeasonsTakeTheSameEvents, EventsHaveCodes};
ghost use Rattle.league_core.specs.laws.LogLaws.{EventsAreCounted, EventsAreOfTheSheet};
ghost use Rattle.league_core.specs.laws.LogLaws.{LogsAreOfTheSheet, LogsGiveResults, LogsHaveCodes};

/// The season after an event is again a season of the sheet, with scores and deductions of at most
/// 99, and all seasons of a sheet may take the same events.
pub fn events_keep_seasons()
    ensures sheet { EventsKeepTheSheet }
    ensures results { EventsKeepResults }
    ensures same_events { SeasonsTakeTheSameEvents }
{}

/// The season of a log is a season of its sheet, with scores and deductions of at most 99, and the
/// log may grow by an event that this season may take. Each event is one epoch more.
pub fn logs_give_seasons()
    ensures sheet { LogsAreOfTheSheet }
    ensures results { LogsGiveResults }
    ensures log { EventsAreOfTheSheet }
    ensures epoch { EventsAreCounted }
{}

/// Every event that a season may take has a code, if the sheet is within the limits.
pub fn events_have_codes()
    ensures event { EventsHaveCodes }
    ensures log { LogsHaveCodes }
{}
