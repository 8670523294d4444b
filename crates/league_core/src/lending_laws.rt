//! The laws of lent leaves: functions that do nothing, each with laws as contract.
//!
//! The statements are in `specs/laws/LendingLaws.antt`.

ghost use Rattle.league_core.specs.laws.LendingLaws.{LoansAreAsManyAsZones, NumbersAreLentAmongAll};
ghost use Rattle.league_core.specs.laws.LendingLaws.{LentLeavesHaveANumber, SettledTreesAreRefuted};
ghost use Rattle.league_core.specs.laws.LendingLaws.{AbsentNumbersHaveNoZone, PutWithoutLoans};
ghost use Rattle.league_core.specs.laws.LendingLaws.{PutLeavesKeepZones, PutTakesTheNumber};
ghost use Rattle.league_core.specs.laws.LendingLaws.{PutKeepsOtherLoans, PutCountsNewNodes};
ghost use Rattle.league_core.specs.laws.LendingLaws.{PutCountsLoans, PutCountsNodes};
ghost use Rattle.league_core.specs.laws.LendingLaws.{PutCountsTheNumber, PutCountsOthers};
ghost use Rattle.league_core.specs.laws.LendingLaws.{PutOpensLeaves, PutKeepsFacts};
ghost use Rattle.league_core.specs.laws.LendingLaws.{LendingKeepsFacts, FactsAreOfLentLeaves};
ghost use Rattle.league_core.specs.laws.LendingLaws.{OpeningKeepsFacts, OpeningTakesAllLoans};
ghost use Rattle.league_core.specs.laws.LendingLaws.{OpeningKeepsTheTree, OpeningOpensLoans};

/// Lent leaves by number and altogether. If none is lent and none is open, all are refuted.
pub fn loans_are_counted()
    ensures zones { LoansAreAsManyAsZones }
    ensures among { NumbersAreLentAmongAll }
    ensures none { LentLeavesHaveANumber }
    ensures settled { SettledTreesAreRefuted }
    ensures absent { AbsentNumbersHaveNoZone }
{}

/// A tree in place of the leaves of a number changes no other leaf.
pub fn put_changes_its_leaves_alone()
    ensures absent { PutWithoutLoans }
    ensures zones { PutLeavesKeepZones }
    ensures taken { PutTakesTheNumber }
    ensures others { PutKeepsOtherLoans }
{}

/// What is counted of a tree after another one was put in place of its leaves.
pub fn put_counts_what_it_brings()
    ensures fresh { PutCountsNewNodes }
    ensures lent { PutCountsLoans }
    ensures nodes { PutCountsNodes }
    ensures number { PutCountsTheNumber }
    ensures others { PutCountsOthers }
    ensures open_leaf { PutOpensLeaves }
{}

/// Facts of all nodes stay when leaves are lent, come back as a tree with these facts, or are
/// opened. They are said here of facts that a `bool` decides; the lemmas of
/// `proofs/NodeFactLemmas.antt` say the same of any.
pub fn loans_keep_facts()
    ensures put { PutKeepsFacts }
    ensures lend { LendingKeepsFacts }
    ensures lent { FactsAreOfLentLeaves }
    ensures opened { OpeningKeepsFacts }
{}

/// A tree with all lent leaves open lends nothing, and is the same otherwise.
pub fn opened_trees_lend_nothing()
    ensures taken { OpeningTakesAllLoans }
    ensures kept { OpeningKeepsTheTree }
    ensures opened { OpeningOpensLoans }
{}
