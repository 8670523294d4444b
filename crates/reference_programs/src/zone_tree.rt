//! The one contract that both bodies of a tree of zones meet.

ghost use Rattle.std.specs.Prelude.{◌≡◌, ◌≤◌, ◌<◌, ◌+◌, ◌↔◌, true, length, IsTrue, IfOk, IfErr};
ghost use Rattle.std.specs.Prelude.{OnErr};
ghost use Rattle.league_core.specs.game.Seasons.{IsLeague};
ghost use Rattle.league_core.specs.search.Trees as trees;
ghost use Rattle.league_core.specs.search.Trees.{open_leaf, refuted_leaf, branch, node_count};
ghost use Rattle.league_core.specs.search.Trees.{has_open, is_refuted, preorder, zones_of};
ghost use Rattle.league_core.specs.inside.Lending.{times_lent, lent_count, put, all_opened};
ghost use Rattle.tree_arena.specs.inside.Calls.{AreTestsOf, Lending, literals_of, most_nodes};
ghost use Rattle.tree_reuse.specs.Retargets.{retargeted};
ghost use Rattle.tree_arena.specs.inside.Stops.{WhyNoTree};

use league_core::{OutOfMemory, Question, Reason, Season, Sheet, Test, TreeNode, Zone};
use std::alloc::Global;
use tree_arena::TreeStop;

/// A tree of zones, whatever stands for its nodes.
pub trait ZoneTree: Sized {
    ghost seen: { Self → trees.Tree };

    /// One open leaf.
    fn root(alloc: Global) -> Result<Self, OutOfMemory>
        ensures { IfOk result (λ tree. seen tree ≡ open_leaf) };

    /// A leaf is open.
    fn has_open(&self) -> bool
        ensures { result ≡ has_open (seen self.now) };

    /// It is one open leaf.
    fn is_one_open_leaf(&self) -> bool
        ensures { IsTrue result ↔ (seen self.now ≡ open_leaf) };

    /// Each leaf is refuted.
    fn is_refuted(&self) -> bool
        ensures { result ≡ is_refuted (seen self.now) };

    /// Lends the first open leaf, depth first, the yes half first, under a number that is not lent,
    /// and returns its zone; `None` if no leaf is open.
    fn lend(&mut self, number: u64) -> Result<Option<Zone>, OutOfMemory>
        requires free { times_lent number (seen self.old) ≡ 0 }
        requires few { node_count (seen self.old) + lent_count (seen self.old) ≤ most_nodes }
        ensures ok { IfOk result (Lending number (seen self.old) (seen self.new)) }
        ensures err { OnErr result (seen self.new ≡ seen self.old) };

    /// The leaf that is lent under the number is open again.
    fn reopen(&mut self, number: u64)
        requires { times_lent number (seen self.old) ≡ 1 }
        ensures { seen self.new ≡ put number open_leaf (seen self.old) };

    /// The leaf that is lent under the number is refuted, and new.
    fn refute(&mut self, number: u64, reason: Reason)
        requires { times_lent number (seen self.old) ≡ 1 }
        ensures { seen self.new ≡ put number (refuted_leaf reason true) (seen self.old) };

    /// The leaf that is lent under the number is a new split with two open leaves.
    fn split(&mut self, number: u64, test: Test)
        requires { times_lent number (seen self.old) ≡ 1 }
        ensures { seen self.new
            ≡ put number (branch test true open_leaf open_leaf) (seen self.old) };

    /// Each lent leaf is open again.
    fn reopen_all(&mut self)
        ensures { seen self.new ≡ all_opened (seen self.old) };

    /// The nodes from the root on, the half where a test is true first.
    fn nodes(&self) -> Result<Vec<TreeNode>, OutOfMemory>
        ensures { IfOk result (λ nodes. nodes.items ≡ preorder (seen self.now)) };

    /// The tree whose nodes are this list; `NoTree` hands the list back exactly when no tree has
    /// it.
    fn of_nodes(alloc: Global, nodes: Vec<TreeNode>) -> Result<Self, TreeStop>
        requires few { length nodes.items ≤ most_nodes }
        ensures ok { IfOk result (λ tree. preorder (seen tree) ≡ nodes.items) }
        ensures err { IfErr result (WhyNoTree nodes.items) };

    /// The zones of all leaves, the half where a test is true first.
    fn leaves(&self) -> Result<Vec<Zone>, OutOfMemory>
        ensures { IfOk result (λ zones. literals_of zones.items ≡ zones_of (seen self.now)) };

    /// What the season leaves of a tree.
    fn retarget(
        alloc: Global,
        sheet: &Sheet,
        question: &Question,
        tree: &Self,
        season: &Season,
    ) -> Result<Self, OutOfMemory>
        requires league { IsLeague sheet.now season.now }
        requires club { question.now.club < length sheet.now.clubs }
        requires tests { AreTestsOf sheet.now (seen tree.now) }
        ensures { IfOk result (λ new. seen new
            ≡ retargeted sheet.now season.now question.now (seen tree.now)) };
}
