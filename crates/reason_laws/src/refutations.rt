//! The laws that join reasons and splits: functions that do nothing, with laws as their contracts.
//!
//! The statements are in `specs/inside/Refutations.antt`.

ghost use Rattle.reason_laws.specs.inside.Refutations.{RefutedTreesDecide, RefutedTreesDecideZones};
ghost use Rattle.reason_laws.specs.inside.Refutations.{RefutedTreesHaveTrueReasons};
ghost use Rattle.reason_laws.specs.inside.Refutations.{ExamplesAreInUnsettledLeaves};

/// A tree whose leaves are all refuted shows that its question has no example, and below a zone
/// that it holds nowhere there.
pub fn refuted_trees_decide()
    ensures season { RefutedTreesDecide }
    ensures zone { RefutedTreesDecideZones }
    ensures reasons { RefutedTreesHaveTrueReasons }
{}

/// If only some leaves are refuted, by reasons that hold, an example is in one of the others.
pub fn examples_are_in_unsettled_leaves()
    ensures { ExamplesAreInUnsettledLeaves }
{}
