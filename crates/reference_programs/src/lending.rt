//! Leaves are lent, and come back.

ghost use Rattle.std.specs.Prelude.{◌≡◌, ◌≤◌, ◌+◌, ◌++◌, ◌∷◌, ◌↔◌, [], true, IsTrue, IfOk, OnErr};
ghost use Rattle.league_core.specs.search.Trees.{open_leaf, refuted_leaf, branch, node_count};
ghost use Rattle.league_core.specs.inside.Lending.{times_lent, lent_count, put, all_opened};
ghost use Rattle.tree_arena.specs.inside.Calls.{Lending, most_nodes};
ghost use Rattle.reference_programs.specs.inside.Boxed.{LendsBelow, LendsHalf, LendsAt, LendsThere};
ghost use Rattle.reference_programs.specs.inside.Boxed.{SplitsNode};

use crate::boxed::{BoxedTree, Node};
use league_core::{Listing, Literal, OutOfMemory, Reason, Test, Zone};
use std::mem;

impl BoxedTree {
    /// Lends an open leaf under a number that is not lent, and returns its zone; `None` if no leaf
    /// is open. It takes the room that a split of this leaf needs. The leaf is the first one that
    /// is open, the half where a test is true before the other.
    pub fn lend(&mut self, number: u64) -> Result<Option<Zone>, OutOfMemory>
        requires free { times_lent number self.old ≡ 0 }
        requires few { node_count self.old + lent_count self.old ≤ most_nodes }
        ensures ok { IfOk result (Lending number self.old self.new) }
        ensures err { OnErr result (self.new ≡ self.old) }
    {
        let mut way = Vec::new(self.alloc);
        if self.lend_below(number, &mut way)? {
            let literals = Listing::from_vec(way);
            return Ok(Some(Zone { literals }));
        }
        Ok(None)
    }

    #[cycle(lend)]
    #[tactic(auto, using(crate::proofs::LendRules::lends))]
    fn lend_below(&mut self, number: u64, way: &mut Vec<Literal>) -> Result<bool, OutOfMemory>
        requires { times_lent number self.old ≡ 0 }
        ensures ok { IfOk result (LendsBelow number self.old self.new way.old.items way.new.items) }
        ensures err { OnErr result (self.new ≡ self.old) }
    {
        match &mut self.node {
            Node::Lent(..) | Node::Refuted(..) => Ok(false),
            Node::Open => {
                let yes_half = Box::new(self.alloc, BoxedTree::leaf(self.alloc))?;
                let no_half = Box::new(self.alloc, BoxedTree::leaf(self.alloc))?;
                self.node = Node::Lent(number, yes_half, no_half);
                Ok(true)
            }
            Node::Split(test, _, yes_half, no_half) => {
                let test = *test;
                if yes_half.lend_half(number, way, Literal { test, yes: true })? {
                    return Ok(true);
                }
                no_half.lend_half(number, way, Literal { test, yes: false })
            }
        }
    }

    // Looks in the half where the literal is true, and leaves the way as it was if nothing is open.
    #[cycle(lend)]
    fn lend_half(
        &mut self,
        number: u64,
        way: &mut Vec<Literal>,
        literal: Literal,
    ) -> Result<bool, OutOfMemory>
        requires { times_lent number self.old ≡ 0 }
        ensures ok { IfOk result
            (LendsHalf number self.old self.new way.old.items literal way.new.items) }
        ensures err { OnErr result (self.new ≡ self.old) }
    {
        way.push(literal)?;
        if self.lend_below(number, way)? {
            return Ok(true);
        }
        way.pop();
        Ok(false)
    }

    /// Lends the open leaf of this zone under a number that is not lent; false, with the tree as
    /// before, if no open leaf has it. So a tree follows another one's choice of a leaf.
    pub fn lend_there(&mut self, zone: &[Literal], number: u64) -> Result<bool, OutOfMemory>
        requires { times_lent number self.old ≡ 0 }
        ensures ok { IfOk result (LendsThere number self.old self.new zone.now) }
        ensures err { OnErr result (self.new ≡ self.old) }
    {
        let mut way = Vec::new(self.alloc);
        self.lend_at(zone, number, &mut way)
    }

    #[cycle(lend_at)]
    #[tactic(auto, using(crate::proofs::LendRules::lends))]
    fn lend_at(
        &mut self,
        zone: &[Literal],
        number: u64,
        way: &mut Vec<Literal>,
    ) -> Result<bool, OutOfMemory>
        requires { times_lent number self.old ≡ 0 }
        ensures ok { IfOk result
            (LendsAt number self.old self.new way.old.items zone.now) }
        ensures way { IfOk result (λ _. way.new.items ≡ way.old.items) }
        ensures err { OnErr result (self.new ≡ self.old) }
    {
        match &mut self.node {
            Node::Lent(..) | Node::Refuted(..) => Ok(false),
            Node::Open => {
                if !is_same(way.as_slice(), zone) {
                    return Ok(false);
                }
                let yes_half = Box::new(self.alloc, BoxedTree::leaf(self.alloc))?;
                let no_half = Box::new(self.alloc, BoxedTree::leaf(self.alloc))?;
                self.node = Node::Lent(number, yes_half, no_half);
                Ok(true)
            }
            Node::Split(test, _, yes_half, no_half) => {
                let test = *test;
                if yes_half.lend_half_at(zone, number, way, Literal { test, yes: true })? {
                    return Ok(true);
                }
                no_half.lend_half_at(zone, number, way, Literal { test, yes: false })
            }
        }
    }

    // Looks in the half where the literal is true.
    #[cycle(lend_at)]
    fn lend_half_at(
        &mut self,
        zone: &[Literal],
        number: u64,
        way: &mut Vec<Literal>,
        literal: Literal,
    ) -> Result<bool, OutOfMemory>
        requires { times_lent number self.old ≡ 0 }
        ensures ok { IfOk result
            (LendsAt number self.old self.new (way.old.items ++ literal ∷ []) zone.now) }
        ensures way { IfOk result (λ _. way.new.items ≡ way.old.items) }
        ensures err { OnErr result (self.new ≡ self.old) }
    {
        way.push(literal)?;
        let is_lent = self.lend_at(zone, number, way)?;
        way.pop();
        Ok(is_lent)
    }

    /// The leaf that is lent under the number is open again.
    pub fn reopen(&mut self, number: u64)
        requires { times_lent number self.old ≡ 1 }
        ensures { self.new ≡ put number open_leaf self.old }
    {
        self.open_lent(number)
    }

    /// The leaf that is lent under the number is refuted, and new.
    pub fn refute(&mut self, number: u64, reason: Reason)
        requires { times_lent number self.old ≡ 1 }
        ensures { self.new ≡ put number (refuted_leaf reason true) self.old }
    {
        self.refute_lent(number, reason)
    }

    /// The leaf that is lent under the number is a new split with two open leaves. It takes no
    /// memory.
    pub fn split(&mut self, number: u64, test: Test)
        requires { times_lent number self.old ≡ 1 }
        ensures { self.new ≡ put number (branch test true open_leaf open_leaf) self.old }
    {
        self.split_lent(number, test)
    }

    /// Each lent leaf is open again.
    pub fn reopen_all(&mut self)
        ensures { self.new ≡ all_opened self.old }
    {
        match &mut self.node {
            Node::Open | Node::Refuted(..) => {}
            Node::Lent(..) => self.node = Node::Open,
            Node::Split(_, _, yes_half, no_half) => {
                yes_half.reopen_all();
                no_half.reopen_all();
            }
        }
    }

    fn open_lent(&mut self, number: u64)
        ensures { self.new ≡ put number open_leaf self.old }
    {
        match &mut self.node {
            Node::Open | Node::Refuted(..) => {}
            Node::Lent(other, _, _) => {
                if *other == number {
                    self.node = Node::Open;
                }
            }
            Node::Split(_, _, yes_half, no_half) => {
                yes_half.open_lent(number);
                no_half.open_lent(number);
            }
        }
    }

    fn refute_lent(&mut self, number: u64, reason: Reason)
        ensures { self.new ≡ put number (refuted_leaf reason true) self.old }
    {
        match &mut self.node {
            Node::Open | Node::Refuted(..) => {}
            Node::Lent(other, _, _) => {
                if *other == number {
                    self.node = Node::Refuted(reason, true);
                }
            }
            Node::Split(_, _, yes_half, no_half) => {
                yes_half.refute_lent(number, reason);
                no_half.refute_lent(number, reason);
            }
        }
    }

    fn split_lent(&mut self, number: u64, test: Test)
        ensures { self.new ≡ put number (branch test true open_leaf open_leaf) self.old }
    {
        match &mut self.node {
            Node::Open | Node::Refuted(..) => {}
            Node::Lent(other, _, _) => {
                if *other == number {
                    take_split(&mut self.node, test);
                }
            }
            Node::Split(_, _, yes_half, no_half) => {
                yes_half.split_lent(number, test);
                no_half.split_lent(number, test);
            }
        }
    }
}

fn is_same(way: &[Literal], zone: &[Literal]) -> bool
    ensures { IsTrue result ↔ (way.now ≡ zone.now) }
{
    way == zone
}

// A lent leaf becomes a new split over its two boxes.
fn take_split(node: &mut Node, test: Test)
    ensures { SplitsNode node.old test node.new }
{
    *node = match mem::replace(node, Node::Open) {
        Node::Lent(_, yes_half, no_half) => Node::Split(test, true, yes_half, no_half),
        other => other,
    };
}
