//! The laws of splits, trees and weights: functions that do nothing, with laws as their contracts.

ghost use Rattle.reason_laws.specs.inside.Splits.{HalvesCover, HalvesAreApart, LeavesCover};
ghost use Rattle.reason_laws.specs.inside.Splits.{LeavesDecide, LeavesCoverZones};
ghost use Rattle.reason_laws.specs.inside.Splits.{LeavesDecideZones, ProperTreesNameRivals};
ghost use Rattle.reason_laws.specs.inside.Weights.{TheRootHasAllFinishes, ScoreTestsDivideFinishes};
ghost use Rattle.reason_laws.specs.inside.Weights.{ScoreTestsLeaveMarks, RivalTestsLeaveOptions};
ghost use Rattle.reason_laws.specs.inside.Weights.{RivalTestsMarkOne, ProperSplitsDivideWeights};
ghost use Rattle.reason_laws.specs.inside.Weights.{HalvesWeighLess, WeightsBoundTrees};
ghost use Rattle.reason_laws.specs.inside.Weights.{FinishesBoundTrees, SpentTreesHaveSmallBudgets};

/// Each member of a zone is in one half by a test, and in one only.
pub fn halves_cover_the_zone()
    ensures covered { HalvesCover }
    ensures apart { HalvesAreApart }
{}

/// The leaves of a tree leave no finish and no lots out, and below a zone no member of it.
pub fn leaves_cover_the_season()
    ensures season { LeavesCover }
    ensures zone { LeavesCoverZones }
{}

/// A question that holds at no leaf has no example, and below a zone it holds nowhere there.
pub fn leaves_decide_the_question()
    ensures season { LeavesDecide }
    ensures zone { LeavesDecideZones }
{}

/// If all splits are proper, no zone of the tree marks the question's own club.
pub fn proper_trees_name_rivals()
    ensures { ProperTreesNameRivals }
{}

/// A proper split by a score divides the finishes and leaves the marks.
pub fn score_tests_divide_finishes()
    ensures finishes { ScoreTestsDivideFinishes }
    ensures marks { ScoreTestsLeaveMarks }
{}

/// A proper split by a rival leaves the options and marks one rival more.
pub fn rival_tests_mark_one()
    ensures options { RivalTestsLeaveOptions }
    ensures marks { RivalTestsMarkOne }
{}

/// A proper split divides the weight, and leaves each half some of it.
pub fn proper_splits_divide_weights()
    ensures divided { ProperSplitsDivideWeights }
    ensures less { HalvesWeighLess }
{}

/// The weight of its root's zone bounds the nodes of a tree whose splits are proper, and the number
/// of finishes those of a whole one, so that a budget which its new nodes use up is smaller still.
pub fn weights_bound_trees()
    ensures root { TheRootHasAllFinishes }
    ensures zone { WeightsBoundTrees }
    ensures season { FinishesBoundTrees }
    ensures spent { SpentTreesHaveSmallBudgets }
{}
