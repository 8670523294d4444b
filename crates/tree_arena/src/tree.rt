//! The tree in an arena: a list of nodes, one of the leaves that are open or lent, in order, and
//! one of those that are lent.

ghost use Rattle.std.specs.Prelude.{◌≡◌, ◌<◌, ◌≤◌, ◌+◌, ◌↔◌, true, length, IsTrue, IfOk};
ghost use Rattle.std.specs.Prelude.{IfErr, OnOk, OnErr};
ghost use Rattle.std.specs.Option.{is_some};
ghost use Rattle.league_core.specs.search.TreeLists.{tree_of};
ghost use Rattle.tree_arena.specs.inside.Stops.{WhyNoTree};
ghost use Rattle.league_core.specs.search.Trees.{open_leaf, refuted_leaf, branch, node_count};
ghost use Rattle.league_core.specs.search.Trees.{has_open, is_refuted, preorder, zones_of};
ghost use Rattle.league_core.specs.inside.Lending.{times_lent, lent_count, put, all_opened};
ghost use Rattle.tree_arena.specs.inside.Calls.{IsFirstLent, Lending, literals_of, most_nodes};
ghost use Rattle.tree_arena.specs.inside.Arena.{IsPathTo};
ghost use Rattle.tree_arena.specs.inside.Subtrees.{subtree_at};

use crate::arena::{find, last_open, split_leaf, take_at, take_leaf, write};
use crate::build::{Build, is_tree};
use crate::last_path::move_to;
use crate::list::list_nodes;
use crate::node::{Kind, Node};
use crate::stop::TreeStop;
use crate::subtrees::Subtrees;
use crate::zones::list_zones;
use league_core::{Listing, Literal, OutOfMemory, Reason, RoomyList, Test, TreeNode, Zone};
use std::alloc::Global;
use std::marker::Model;

/// The most nodes and lent leaves together with which a leaf can be lent.
pub const MOST_NODES: u32 = 2_000_000_000;

/// A tree of zones. Contracts see the tree of splits and leaves, wherever its nodes stand.
#[derive(Drop)]
pub struct Tree {
    alloc: Global,
    nodes: RoomyList<Node>,
    // The leaves that are open or lent, the first one last.
    live: RoomyList<u32>,
    lent: RoomyList<u32>,
    // The way from the root to a node, the one whose zone was returned last, and a list as scratch
    // space while it is made.
    zone_box: Listing<Literal>,
    last: u32,
    hand: Listing<Literal>,
}

impl Model for Tree {
    ghost use Rattle.league_core.specs.search.Trees as trees;
    ghost use Rattle.league_core.specs.search.TreeLists.{coded_tree};

    ghost Value = { trees.Tree };

    ghost coded = { coded_tree };

    ghost use Rattle.tree_arena.specs.inside.Arena.{tree_below};
    ghost use Rattle.tree_arena.specs.inside.LastPaths.{KeepsPath};

    ghost view = { λ tree. tree_below tree.nodes.items 0 };

    ghost invariant = { λ tree.
        KeepsPath tree.nodes tree.live tree.lent tree.zone_box tree.last };
}

impl Tree {
    /// One open leaf.
    pub fn root(alloc: Global) -> Result<Tree, OutOfMemory>
        ensures { IfOk result (λ tree. tree ≡ open_leaf) }
    {
        let mut nodes = RoomyList::new(alloc);
        let mut live = RoomyList::new(alloc);
        nodes.reserve(1)?;
        live.reserve(1)?;
        nodes.push(Node {
            kind: Kind::Open,
            parent: 0,
            yes: true,
        });
        live.push(0);
        let lent = RoomyList::new(alloc);
        let zone_box = Listing::new(alloc);
        let hand = Listing::new(alloc);
        Ok(Tree {
            alloc,
            nodes,
            live,
            lent,
            zone_box,
            last: 0,
            hand,
        })
    }

    /// How many nodes it has.
    pub fn node_count(&self) -> usize
        ensures { result ≡ node_count self.now }
    {
        self.nodes.len()
    }

    /// A leaf is open.
    pub fn has_open(&self) -> bool
        ensures { result ≡ has_open self.now }
    {
        self.live.len() > self.lent.len()
    }

    /// It is one open leaf.
    #[tactic(auto, using(crate::proofs::LeafLemmas::open_leaf_is))]
    pub fn is_one_open_leaf(&self) -> bool
        ensures { IsTrue result ↔ (self.now ≡ open_leaf) }
    {
        self.node_count() == 1 && self.has_open()
    }

    /// Each leaf is refuted.
    pub fn is_refuted(&self) -> bool
        ensures { result ≡ is_refuted self.now }
    {
        self.live.len() == 0
    }

    /// Lends the first open leaf, depth first, the yes half first, under a number that is not lent,
    /// and returns its zone; `None` if no leaf is open. It takes the room that a split of this leaf
    /// needs; if memory runs out the tree is as before.
    pub fn lend(&mut self, number: u64) -> Result<Option<Zone>, OutOfMemory>
        requires free { times_lent number self.old ≡ 0 }
        requires few { node_count self.old + lent_count self.old ≤ most_nodes }
        ensures ok { IfOk result (Lending number self.old self.new) }
        ensures err { OnErr result (self.new ≡ self.old) }
    {
        if !self.has_open() {
            return Ok(None);
        }
        self.lend_first(number)?;
        match self.zone(number) {
            Ok(literals) => Ok(Some(Zone { literals })),
            Err(_) => {
                self.reopen(number);
                Err(OutOfMemory)
            }
        }
    }

    // Lends the first open leaf.
    fn lend_first(&mut self, number: u64) -> Result<(), OutOfMemory>
        requires free { times_lent number self.old ≡ 0 }
        requires few { node_count self.old + lent_count self.old ≤ most_nodes }
        requires some { has_open self.old ≡ true }
        ensures ok { OnOk result (put number open_leaf self.new ≡ self.old) }
        ensures once { OnOk result (times_lent number self.new ≡ 1) }
        ensures first { OnOk result (IsFirstLent number self.new) }
        ensures err { OnErr result (self.new ≡ self.old) }
    {
        let _ = &self.nodes;
        let many = self.lent.len() + 1;
        self.lent.reserve(1)?;
        self.nodes.reserve(2 * many)?;
        self.live.reserve(many)?;
        let place = last_open(self.nodes.as_slice(), self.live.as_slice());
        let leaf = self.live.as_slice()[place];
        write(&mut self.nodes, leaf, Kind::Lent(number));
        self.lent.push(leaf);
        Ok(())
    }

    // The zone of the leaf that is lent under the number.
    fn zone(&mut self, number: u64) -> Result<Listing<Literal>, OutOfMemory>
        requires { times_lent number self.old ≡ 1 }
        ensures zone_box { IfOk result (IsPathTo number self.old) }
        ensures same { self.new ≡ self.old }
    {
        let place = find(self.nodes.as_slice(), self.lent.as_slice(), number);
        let leaf = self.lent.as_slice()[place];
        move_to(
            self.nodes.as_slice(),
            leaf,
            &mut self.last,
            &mut self.zone_box,
            &mut self.hand,
        )?;
        let literals = self.zone_box.copy(self.alloc)?;
        Ok(literals)
    }

    /// The leaf that is lent under the number is open again.
    pub fn reopen(&mut self, number: u64)
        requires { times_lent number self.old ≡ 1 }
        ensures { self.new ≡ put number open_leaf self.old }
    {
        let place = find(self.nodes.as_slice(), self.lent.as_slice(), number);
        let leaf = take_at(&mut self.lent, place);
        write(&mut self.nodes, leaf, Kind::Open);
    }

    /// The leaf that is lent under the number is refuted, and new.
    pub fn refute(&mut self, number: u64, reason: Reason)
        requires { times_lent number self.old ≡ 1 }
        ensures { self.new ≡ put number (refuted_leaf reason true) self.old }
    {
        let place = find(self.nodes.as_slice(), self.lent.as_slice(), number);
        let leaf = take_at(&mut self.lent, place);
        write(&mut self.nodes, leaf, Kind::Refuted(reason, true));
        take_leaf(&mut self.live, leaf);
    }

    /// The leaf that is lent under the number is a new split with two open leaves. It takes no
    /// memory.
    pub fn split(&mut self, number: u64, test: Test)
        requires { times_lent number self.old ≡ 1 }
        ensures { self.new ≡ put number (branch test true open_leaf open_leaf) self.old }
    {
        let place = find(self.nodes.as_slice(), self.lent.as_slice(), number);
        let leaf = take_at(&mut self.lent, place);
        let size = self.nodes.len() as u32;
        write(
            &mut self.nodes,
            leaf,
            Kind::Split(test, true, size - leaf - 1),
        );
        self.nodes.push(Node {
            kind: Kind::Open,
            parent: leaf,
            yes: true,
        });
        self.nodes.push(Node {
            kind: Kind::Open,
            parent: leaf,
            yes: false,
        });
        split_leaf(&mut self.live, leaf, size);
    }

    /// Each lent leaf is open again.
    pub fn reopen_all(&mut self)
        ensures { self.new ≡ all_opened self.old }
    {
        while self.lent.len() > 0 {
            let leaf = self.lent.pop();
            write(&mut self.nodes, leaf, Kind::Open);
        }
    }

    /// The nodes from the root on, the half where a test is true first.
    pub fn nodes(&self) -> Result<Vec<TreeNode>, OutOfMemory>
        ensures { IfOk result (λ nodes. nodes.items ≡ preorder self.now) }
    {
        list_nodes(self.alloc, self.nodes.as_slice())
    }

    /// The trees below its nodes, to be looked at one by one.
    pub fn subtrees(&self) -> Subtrees<'_>
        ensures some { 0 < length result }
        ensures tree { subtree_at result 0 ≡ self.now }
    {
        Subtrees::of(self.nodes.as_slice())
    }

    /// The tree whose nodes are this list; `NoTree` hands the list back exactly when no tree has
    /// it, and if memory runs out it is dropped. Its open leaves are lent as the list has them, the
    /// first one first.
    pub fn of_nodes(alloc: Global, nodes: Vec<TreeNode>) -> Result<Tree, TreeStop>
        requires few { length nodes.items ≤ most_nodes }
        ensures ok { IfOk result (λ tree. preorder tree ≡ nodes.items) }
        ensures err { IfErr result (WhyNoTree nodes.items) }
    {
        if !is_tree(nodes.as_slice()) {
            return Err(TreeStop::NoTree(nodes));
        }
        match Tree::of_preorder(alloc, nodes.as_slice()) {
            Ok(tree) => Ok(tree),
            Err(_) => Err(TreeStop::OutOfMemory),
        }
    }

    /// The tree of a list that is a tree's; that it is one is not tested. Its open leaves are lent
    /// as in `of_nodes`.
    pub fn of_preorder(alloc: Global, list: &[TreeNode]) -> Result<Tree, OutOfMemory>
        requires few { length list.now ≤ most_nodes }
        requires some { IsTrue (is_some (tree_of list.now)) }
        ensures { IfOk result (λ tree. preorder tree ≡ list.now) }
    {
        let mut build = Build::of_list(alloc, list)?;
        let many = build.lent.len();
        build.nodes.reserve(2 * many)?;
        build.live.reserve(many)?;
        let Build {
            nodes,
            places: _,
            live,
            lent,
        } = build;
        let zone_box = Listing::new(alloc);
        let hand = Listing::new(alloc);
        Ok(Tree {
            alloc,
            nodes,
            live,
            lent,
            zone_box,
            last: 0,
            hand,
        })
    }

    /// The zones of all leaves, the half where a test is true first.
    pub fn leaves(&self) -> Result<Vec<Zone>, OutOfMemory>
        ensures { IfOk result (λ zones. literals_of zones.items ≡ zones_of self.now) }
    {
        let nodes = self.nodes()?;
        list_zones(self.alloc, nodes.as_slice())
    }
}
