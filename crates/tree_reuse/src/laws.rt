//! The laws of trees and of what is carried over to another season: functions that do nothing, each
//! with laws as contract.
//!
//! The statements on what is carried over are in `specs/inside/RetargetLaws.antt`, and on trees
//! that anyone made in `specs/Asked.antt`.

ghost use Rattle.std.specs.Prelude.{◌≡◌};
ghost use Rattle.tree_arena.specs.inside.Calls.{most_nodes};
ghost use Rattle.tree_reuse.specs.Retargets.{most_kept};
ghost use Rattle.tree_reuse.specs.inside.RetargetLaws.{RetargetedTreesLendNothing};
ghost use Rattle.tree_reuse.specs.inside.RetargetLaws.{RetargetedTreesHaveNothingNew};
ghost use Rattle.tree_reuse.specs.inside.RetargetLaws.{RetargetedTreesAreNoGreater};
ghost use Rattle.tree_reuse.specs.inside.RetargetLaws.{RetargetedTreesAreGood};
ghost use Rattle.tree_reuse.specs.inside.RetargetLaws.{ProperTreesAreOfTheSheet};
ghost use Rattle.tree_reuse.specs.inside.AskedLaws.{AskedTreesAreGood, ProperTreesAreAsked};

use crate::halves::MOST_KEPT;
use tree_arena::MOST_NODES;

/// The constants are the numbers that the definitions state.
pub fn constants_are_the_limits()
    ensures nodes { MOST_NODES ≡ most_nodes }
    ensures kept { MOST_KEPT ≡ most_kept }
{}

/// A tree that was carried over lends nothing, has nothing new and is no greater; if its tests may
/// be asked, all its nodes are good in the new season. Tests of proper splits may be.
pub fn retargeting_keeps_what_holds()
    ensures lent { RetargetedTreesLendNothing }
    ensures fresh { RetargetedTreesHaveNothingNew }
    ensures nodes { RetargetedTreesAreNoGreater }
    ensures good { RetargetedTreesAreGood }
    ensures tests { ProperTreesAreOfTheSheet }
    ensures asked { AskedTreesAreGood }
    ensures proper { ProperTreesAreAsked }
{}
