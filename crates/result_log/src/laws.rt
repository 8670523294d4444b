//! The laws of feeds: functions that do nothing, each with a law as contract.
//!
//! The statements are in `specs/inside/Laws.antt`. What holds of events and of logs alone stands in
//! league_core.

ghost use Rattle.result_log.specs.inside.Laws.{EntriesMayCome, FeedsAreReadByEntries};
ghost use Rattle.result_log.specs.inside.Laws.{FeedsKeepTheLog, FeedsAreReadByRounds};
ghost use Rattle.result_log.specs.inside.Laws.{RoundsEndOtherwise, NoRecordIsTheEnd};
ghost use Rattle.result_log.specs.inside.Laws.{ReadingsMayCome, SeasonsGrowByEntries};
ghost use Rattle.result_log.specs.inside.Laws.{LastLinesCloseRounds, EventLinesBeginRounds};

/// An event that a record tells is one that its season may be told.
pub fn events_told_may_be_applied()
    ensures entries { EntriesMayCome }
    ensures end { NoRecordIsTheEnd }
    ensures readings { ReadingsMayCome }
{}

/// A feed is its first entry, and then the feed after it in the season after that entry. Its
/// events are events of the sheet, and never too many.
pub fn a_feed_is_read_entry_by_entry()
    ensures entries { FeedsAreReadByEntries }
    ensures seasons { SeasonsGrowByEntries }
    ensures log { FeedsKeepTheLog }
{}

/// A feed is its first round, the events up to an ask, the end or a stop, and then the feed after
/// it.
pub fn a_feed_is_read_round_by_round()
    ensures rounds { FeedsAreReadByRounds }
    ensures close { RoundsEndOtherwise }
{}

/// What lines tell one by one is what all of the input has there, however its lines are read: lines
/// that tell events begin a round with these events, and a line that asks or is refused closes it.
pub fn a_round_is_read_as_its_lines()
    ensures lines { EventLinesBeginRounds }
    ensures last { LastLinesCloseRounds }
{}
