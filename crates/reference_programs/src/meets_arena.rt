//! The tree in its arena meets the contract of a tree of zones.

use crate::zone_tree::ZoneTree;
use league_core::{OutOfMemory, Question, Reason, Season, Sheet, Test, TreeNode, Zone};
use std::alloc::Global;
use tree_arena::{Tree, TreeStop};

impl ZoneTree for Tree {
    ghost seen = { λ tree. tree };

    fn root(alloc: Global) -> Result<Tree, OutOfMemory> {
        Tree::root(alloc)
    }

    fn has_open(&self) -> bool {
        Tree::has_open(self)
    }

    fn is_one_open_leaf(&self) -> bool {
        Tree::is_one_open_leaf(self)
    }

    fn is_refuted(&self) -> bool {
        Tree::is_refuted(self)
    }

    fn lend(&mut self, number: u64) -> Result<Option<Zone>, OutOfMemory> {
        Tree::lend(self, number)
    }

    fn reopen(&mut self, number: u64) {
        Tree::reopen(self, number)
    }

    fn refute(&mut self, number: u64, reason: Reason) {
        Tree::refute(self, number, reason)
    }

    fn split(&mut self, number: u64, test: Test) {
        Tree::split(self, number, test)
    }

    fn reopen_all(&mut self) {
        Tree::reopen_all(self)
    }

    fn nodes(&self) -> Result<Vec<TreeNode>, OutOfMemory> {
        Tree::nodes(self)
    }

    fn of_nodes(alloc: Global, nodes: Vec<TreeNode>) -> Result<Tree, TreeStop> {
        Tree::of_nodes(alloc, nodes)
    }

    fn leaves(&self) -> Result<Vec<Zone>, OutOfMemory> {
        Tree::leaves(self)
    }

    fn retarget(
        alloc: Global,
        sheet: &Sheet,
        question: &Question,
        tree: &Tree,
        season: &Season,
    ) -> Result<Tree, OutOfMemory> {
        tree_reuse::retarget(alloc, sheet, question, tree, season)
    }
}
