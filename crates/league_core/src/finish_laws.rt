//! The laws of finishes: functions that do nothing, each with laws as contract.
//!
//! The statements are in `specs/laws/FinishLaws.antt`, and the list of all finishes is in
//! `specs/inside/FinishList.antt`.

ghost use Rattle.league_core.specs.laws.FinishLaws.{FinishesAreListed, FinishesAreCounted};
ghost use Rattle.league_core.specs.laws.FinishLaws.{FinishesAreNumbered, FinishesArePlayed};
ghost use Rattle.league_core.specs.laws.FinishLaws.{FinishesAreOfTheSheet, OneVerdictHolds};

/// A finish leaves nothing open, and has the sheet's fixtures and clubs.
pub fn finishes_are_played()
    ensures played { FinishesArePlayed }
    ensures sheet { FinishesAreOfTheSheet }
{}

/// A season has finitely many finishes: those of a list, which is as long as the product of the
/// ways in which each fixture may end.
pub fn finishes_are_listed()
    ensures listed { FinishesAreListed }
    ensures counted { FinishesAreCounted }
    ensures numbered { FinishesAreNumbered }
{}

/// For each club and line one of clinched, lost and possible holds.
pub fn one_verdict_at_least()
    ensures { OneVerdictHolds }
{}
