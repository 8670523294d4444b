//! The laws of verdicts given a zone: functions that do nothing, each with laws as its contract.
//!
//! The statements are in `specs/laws/GivenLaws.antt`. They hold by the definitions alone, for every
//! sheet and every season, so that code and proofs elsewhere may rest on them.

ghost use Rattle.league_core.specs.laws.GivenLaws.{ClinchedGivenNothing, LostGivenNothing};
ghost use Rattle.league_core.specs.laws.GivenLaws.{PossibleGivenNothing, PossibleGivenIsPossible};
ghost use Rattle.league_core.specs.laws.GivenLaws.{NowhereIsWithoutExample, SettledVerdictsStay};

/// If nothing is asked of any match or rival, the verdict given the zone is the season's.
pub fn verdicts_given_nothing_are_the_seasons()
    ensures clinched { ClinchedGivenNothing }
    ensures lost { LostGivenNothing }
    ensures possible { PossibleGivenNothing }
{}

/// A zone takes examples away and adds none: what is clinched or lost in the season is so in each
/// zone, and what is possible in a zone is possible in the season.
pub fn zones_have_fewer_examples()
    ensures nowhere { NowhereIsWithoutExample }
    ensures stays { SettledVerdictsStay }
    ensures possible { PossibleGivenIsPossible }
{}
