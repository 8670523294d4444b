//! The laws of the ranking and of verdicts: functions that do nothing, each with a law as
//! contract.
//!
//! The statements are in `specs/laws/Laws.antt` and `specs/laws/StandingLaws.antt`. They hold by
//! the definitions alone, for every sheet and every season, so that code and proofs elsewhere may
//! rest on them.

ghost use Rattle.league_core.specs.laws.Laws.{FavouredLotsAreBest, FavouredLotsAnswer};
ghost use Rattle.league_core.specs.laws.Laws.{LotsForAClaimAreLots, LotsForAClaimFavourIt};
ghost use Rattle.league_core.specs.laws.Laws.{BestPlaceIsLeast, WorstPlaceIsGreatest};
ghost use Rattle.league_core.specs.laws.Laws.{PlayedSeasonFinishesItself};
ghost use Rattle.league_core.specs.laws.Laws.{PlayedSeasonIsItsOnlyFinish, ClinchedByTheWorstPlace};
ghost use Rattle.league_core.specs.laws.Laws.{LostByTheBestPlace, BestPlaceIsAnExample};
ghost use Rattle.league_core.specs.laws.Laws.{WorstPlaceIsAnExample, PointsAreInTheFullWindow};
ghost use Rattle.league_core.specs.laws.Laws.{RankingIsATotalOrder, OneOfTwoRanksBefore};
ghost use Rattle.league_core.specs.laws.Laws.{NeverBothRankBefore, NoneRanksBeforeItself};
ghost use Rattle.league_core.specs.laws.Laws.{BeforeIsALowerPlace, PlacesAreAsManyAsClubs};
ghost use Rattle.league_core.specs.laws.StandingLaws.{StandingIsATotalOrder, OneAtMostIsAhead};
ghost use Rattle.league_core.specs.laws.StandingLaws.{BlocksStandAlike, EachStandsAlikeToABlock};
ghost use Rattle.league_core.specs.laws.StandingLaws.{TimesAreEnough, StandingIsByTheRule};
ghost use Rattle.league_core.specs.laws.Laws.{MorePointsRankBefore, NoneRanksBeforeMorePoints};
ghost use Rattle.league_core.specs.laws.Laws.{EventsAreTakenInOrder, EachSeasonHasAFinish};
ghost use Rattle.league_core.specs.laws.Laws.{PossibleExcludesClinched, PossibleExcludesLost};
ghost use Rattle.league_core.specs.laws.Laws.{ClinchedExcludesLost, AllowedTableAsLots};

/// Of all lots two suffice to know what a club can reach: those in which it is first, and those in
/// which it is last. A claim that some lots show is shown by the lots that favour it.
pub fn two_lots_suffice()
    ensures sides { FavouredLotsAreBest }
    ensures questions { FavouredLotsAnswer }
    ensures lots { LotsForAClaimAreLots }
    ensures favoured { LotsForAClaimFavourIt }
    ensures best { BestPlaceIsLeast }
    ensures worst { WorstPlaceIsGreatest }
{}

/// If every fixture has a score, nothing is left open: the season is its only finish.
pub fn a_played_season_is_its_only_finish()
    ensures itself { PlayedSeasonFinishesItself }
    ensures only { PlayedSeasonIsItsOnlyFinish }
{}

/// The verdict of a played season follows from two places of the club: the worst, with the club
/// last in the lots, and the best, with the club first.
pub fn two_places_decide_a_played_season()
    ensures clinched { ClinchedByTheWorstPlace }
    ensures lost { LostByTheBestPlace }
    ensures inside { BestPlaceIsAnExample }
    ensures outside { WorstPlaceIsAnExample }
{}

/// The window from -99 to 1,800 points leaves nothing out: 600 matches give 1,800 points at most,
/// and no more than 99 are taken off.
pub fn points_are_in_the_full_window()
    ensures { PointsAreInTheFullWindow }
{}

/// The ranking puts all clubs in one order: of two different clubs one comes first, and with lots
/// of all clubs no two share a place.
pub fn ranking_is_a_total_order()
    ensures total { RankingIsATotalOrder }
    ensures one { OneOfTwoRanksBefore }
    ensures both { NeverBothRankBefore }
    ensures itself { NoneRanksBeforeItself }
    ensures places { BeforeIsALowerPlace }
    ensures last { PlacesAreAsManyAsClubs }
{}

/// In a group, clubs of which neither is ahead form blocks, and of two different blocks one is
/// wholly ahead of the other.
pub fn standing_is_a_total_order()
    ensures total { StandingIsATotalOrder }
    ensures one { OneAtMostIsAhead }
    ensures blocks { BlocksStandAlike }
    ensures thirds { EachStandsAlikeToABlock }
{}

/// How often the head-to-head record is taken at most is no part of the meaning, as long as it may
/// be taken once for each club of the group.
pub fn times_are_enough()
    ensures { TimesAreEnough }
{}

/// The standing in a group, in the words of the rule: the head-to-head record; among the clubs that
/// it leaves level the same again, if these are fewer; and the sums over all matches, then the
/// fixed rank, if they are not. If the sheet puts the overall sums first: difference and goals over
/// all matches, and then this rule among the clubs that share both.
pub fn standing_is_the_recursion()
    ensures { StandingIsByTheRule }
{}

/// Points count before everything else.
pub fn more_points_rank_before()
    ensures more { MorePointsRankBefore }
    ensures fewer { NoneRanksBeforeMorePoints }
{}

/// Events change a season one after the other, in the order in which they are reported.
pub fn events_are_taken_in_order()
    ensures { EventsAreTakenInOrder }
{}

/// Whatever is left open, the season can end: each season has a finish.
pub fn each_season_has_a_finish()
    ensures { EachSeasonHasAFinish }
{}

/// No two of clinched, lost and possible hold together.
pub fn one_verdict_at_most()
    ensures possible_clinched { PossibleExcludesClinched }
    ensures possible_lost { PossibleExcludesLost }
    ensures clinched_lost { ClinchedExcludesLost }
{}

/// Each order of the clubs that points and criteria allow is the table with some lots: with that
/// order as the lots. So whatever points and criteria leave open, lots can settle either way.
pub fn lots_give_each_table()
    ensures { AllowedTableAsLots }
{}
