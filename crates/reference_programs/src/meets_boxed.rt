//! The tree in boxes meets the contract of a tree of zones.

use crate::boxed::BoxedTree;
use crate::zone_tree::ZoneTree;
use league_core::{OutOfMemory, Question, Reason, Season, Sheet, Test, TreeNode, Zone};
use std::alloc::Global;
use tree_arena::TreeStop;

impl ZoneTree for BoxedTree {
    ghost seen = { λ tree. tree };

    fn root(alloc: Global) -> Result<BoxedTree, OutOfMemory> {
        BoxedTree::root(alloc)
    }

    fn has_open(&self) -> bool {
        BoxedTree::has_open(self)
    }

    fn is_one_open_leaf(&self) -> bool {
        BoxedTree::is_one_open_leaf(self)
    }

    fn is_refuted(&self) -> bool {
        BoxedTree::is_refuted(self)
    }

    fn lend(&mut self, number: u64) -> Result<Option<Zone>, OutOfMemory> {
        BoxedTree::lend(self, number)
    }

    fn reopen(&mut self, number: u64) {
        BoxedTree::reopen(self, number)
    }

    fn refute(&mut self, number: u64, reason: Reason) {
        BoxedTree::refute(self, number, reason)
    }

    fn split(&mut self, number: u64, test: Test) {
        BoxedTree::split(self, number, test)
    }

    fn reopen_all(&mut self) {
        BoxedTree::reopen_all(self)
    }

    fn nodes(&self) -> Result<Vec<TreeNode>, OutOfMemory> {
        BoxedTree::nodes(self)
    }

    fn of_nodes(alloc: Global, nodes: Vec<TreeNode>) -> Result<BoxedTree, TreeStop> {
        BoxedTree::of_nodes(alloc, nodes)
    }

    fn leaves(&self) -> Result<Vec<Zone>, OutOfMemory> {
        BoxedTree::leaves(self)
    }

    fn retarget(
        alloc: Global,
        sheet: &Sheet,
        question: &Question,
        tree: &BoxedTree,
        season: &Season,
    ) -> Result<BoxedTree, OutOfMemory> {
        crate::carried::retarget(alloc, sheet, question, tree, season)
    }
}
