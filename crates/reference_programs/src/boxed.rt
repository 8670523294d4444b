//! The tree in boxes.

ghost use Rattle.std.specs.Prelude.{◌≡◌, ◌↔◌, ◌==◌, true, nat_lt, IsTrue, IfOk};
ghost use Rattle.league_core.specs.search.Trees.{open_leaf, has_open, is_refuted};
ghost use Rattle.league_core.specs.inside.Lending.{times_lent};

use league_core::{OutOfMemory, Reason, Test};
use std::alloc::Global;
use std::marker::Model;

/// A tree of zones. Contracts see the tree of splits and leaves, wherever its nodes stand.
#[cycle(tree)]
#[derive(Drop)]
pub struct BoxedTree {
    pub(crate) alloc: Global,
    pub(crate) node: Node,
}

// A lent leaf keeps the two boxes that its split will need; a split has its test, whether it is
// new, and its halves.
#[cycle(tree)]
#[derive(Drop)]
pub(crate) enum Node {
    Open,
    Lent(u64, Box<BoxedTree>, Box<BoxedTree>),
    Refuted(Reason, bool),
    Split(Test, bool, Box<BoxedTree>, Box<BoxedTree>),
}

impl Model for BoxedTree {
    ghost use Rattle.league_core.specs.search.Trees as trees;
    ghost use Rattle.league_core.specs.search.TreeLists.{coded_tree};

    ghost Value = { trees.Tree };

    ghost coded = { coded_tree };

    ghost use Rattle.reference_programs.specs.inside.Boxed.{seen, SparesAreOpen, depth};

    ghost view = { λ tree. seen tree.node };

    ghost invariant = { λ tree. SparesAreOpen tree.node };

    ghost size = { depth };

    ghost use Rattle.std.proofs.Common.{arith};

    ghost size_decreases = { λ a h. Prim.grind arith };
}

impl BoxedTree {
    /// One open leaf.
    pub fn root(alloc: Global) -> Result<BoxedTree, OutOfMemory>
        ensures { IfOk result (λ tree. tree ≡ open_leaf) }
    {
        Ok(BoxedTree::leaf(alloc))
    }

    pub(crate) fn leaf(alloc: Global) -> BoxedTree
        ensures { result ≡ open_leaf }
    {
        BoxedTree {
            alloc,
            node: Node::Open,
        }
    }

    /// A leaf is open.
    pub fn has_open(&self) -> bool
        ensures { result ≡ has_open self.now }
    {
        match &self.node {
            Node::Open => true,
            Node::Lent(..) | Node::Refuted(..) => false,
            Node::Split(_, _, yes_half, no_half) => yes_half.has_open() || no_half.has_open(),
        }
    }

    /// It is one open leaf.
    pub fn is_one_open_leaf(&self) -> bool
        ensures { IsTrue result ↔ (self.now ≡ open_leaf) }
    {
        match &self.node {
            Node::Open => true,
            Node::Lent(..) | Node::Refuted(..) | Node::Split(..) => false,
        }
    }

    /// Each leaf is refuted.
    pub fn is_refuted(&self) -> bool
        ensures { result ≡ is_refuted self.now }
    {
        match &self.node {
            Node::Open | Node::Lent(..) => false,
            Node::Refuted(..) => true,
            Node::Split(_, _, yes_half, no_half) => yes_half.is_refuted() && no_half.is_refuted(),
        }
    }

    /// A leaf is lent under the number.
    pub fn is_lent(&self, number: u64) -> bool
        ensures { result ≡ nat_lt 0 (times_lent number self.now) }
    {
        match &self.node {
            Node::Open | Node::Refuted(..) => false,
            Node::Lent(other, _, _) => *other == number,
            Node::Split(_, _, yes_half, no_half) => {
                yes_half.is_lent(number) || no_half.is_lent(number)
            }
        }
    }

    /// One leaf is lent under the number, and no other.
    pub fn is_lent_once(&self, number: u64) -> bool
        ensures { result ≡ (times_lent number self.now == 1) }
    {
        match &self.node {
            Node::Open | Node::Refuted(..) => false,
            Node::Lent(other, _, _) => *other == number,
            Node::Split(_, _, yes_half, no_half) => {
                if yes_half.is_lent(number) {
                    yes_half.is_lent_once(number) && !no_half.is_lent(number)
                } else {
                    no_half.is_lent_once(number)
                }
            }
        }
    }
}
