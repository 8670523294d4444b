//! The laws of trees, their leaves, their lists and their splits: functions that do nothing, each
//! with laws as contract.
//!
//! The statements are in `specs/laws/TreeLaws.antt` and `specs/laws/SplitLaws.antt`.

ghost use Rattle.league_core.specs.laws.TreeLaws.{ZonesAreOfLeaves, LentZonesAreOfLeaves};
ghost use Rattle.league_core.specs.laws.TreeLaws.{OpenTreesHaveAnOpenLeaf, FactsOfNodesAreOfLeaves};
ghost use Rattle.league_core.specs.laws.TreeLaws.{RefutedTreesHaveRefutedLeaves, ListsHaveEachNode};
ghost use Rattle.league_core.specs.laws.TreeLaws.{LeavesAreOneMoreThanSplits, NewNodesAreNodes};
ghost use Rattle.league_core.specs.laws.TreeLaws.{ReadingIsExact, UnreadListsHaveNoTree};
ghost use Rattle.league_core.specs.laws.TreeLaws.{ListsDetermineTrees};
ghost use Rattle.league_core.specs.laws.SplitLaws.{SeasonsHaveAFinish, ScoreTestsLeaveAFinish};
ghost use Rattle.league_core.specs.laws.SplitLaws.{RivalTestsLeaveFinishes};
ghost use Rattle.league_core.specs.laws.SplitLaws.{ProperHalvesHaveAFinish};
ghost use Rattle.league_core.specs.laws.SplitLaws.{ProperTreesHaveFinishes};

/// The list of its leaves, each with its zone and its kind, gives a tree's zones, which of them are
/// lent under a number, whether a leaf is open and whether all are refuted. A fact of all nodes
/// that a `bool` decides is one of all leaves.
pub fn leaves_tell_the_tree()
    ensures zones { ZonesAreOfLeaves }
    ensures lent { LentZonesAreOfLeaves }
    ensures open_leaf { OpenTreesHaveAnOpenLeaf }
    ensures refuted { RefutedTreesHaveRefutedLeaves }
    ensures facts { FactsOfNodesAreOfLeaves }
{}

/// A tree's list is as long as it has nodes; it has one leaf more than it has splits.
pub fn nodes_are_counted()
    ensures listed { ListsHaveEachNode }
    ensures leaves { LeavesAreOneMoreThanSplits }
    ensures fresh { NewNodesAreNodes }
{}

/// Each list of nodes is the list of one tree, or of none.
pub fn trees_are_their_lists()
    ensures read { ReadingIsExact }
    ensures unread { UnreadListsHaveNoTree }
    ensures one_tree { ListsDetermineTrees }
{}

/// A season has a finish, and no split loses the finishes of a zone; a proper one leaves some in
/// each half, so that each zone of a tree of proper splits has one.
pub fn splits_leave_finishes()
    ensures root { SeasonsHaveAFinish }
    ensures score { ScoreTestsLeaveAFinish }
    ensures rival { RivalTestsLeaveFinishes }
    ensures proper { ProperHalvesHaveAFinish }
    ensures tree { ProperTreesHaveFinishes }
{}
