//! Looks at the nodes of a tree one after the other, without a list of them.

ghost use Rattle.std.specs.Prelude.{◌≡◌, ◌<◌, ◌≤◌, length};
ghost use Rattle.tree_arena.specs.inside.Arena.{AllWithin, shapes, HasRoomFor};
ghost use Rattle.tree_arena.specs.inside.Subtrees.{subtree_at, look_under, seen_by};

use crate::list::listed;
use crate::node::{Kind, MOST_NUMBERS, Node};
use league_core::TreeNode;
use std::marker::Model;

/// The trees below all nodes of a tree, each under a number. The whole tree is number 0.
#[derive(Drop)]
pub struct Subtrees<'a> {
    nodes: &'a [Node],
}

impl<'a> Model for Subtrees<'a> {
    ghost use Rattle.std.specs.Prelude.{◌≤◌, List, length};
    ghost use Rattle.std.specs.Coded.{codes};
    ghost use Rattle.league_core.specs.search.Trees.{Tree};
    ghost use Rattle.league_core.specs.search.TreeLists.{coded_tree};
    ghost use Rattle.tree_arena.specs.inside.Arena.{AllWithin, shapes};
    ghost use Rattle.tree_arena.specs.declared.node.TheConstants.{MOST_NUMBERS};

    ghost Value = { List Tree };

    ghost coded = { Prim.hlevel (codes, coded_tree) };

    ghost view = { λ trees. shapes trees.nodes.now };

    ghost invariant = { λ trees.
        AllWithin trees.nodes.now × (length trees.nodes.now ≤ MOST_NUMBERS) };
}

/// The first node of a tree, and the numbers of the halves that it splits into; those of a leaf say
/// nothing.
#[derive(Clone, Copy)]
pub struct Look {
    pub node: TreeNode,
    pub yes_half: u32,
    pub no_half: u32,
}

impl<'a> Subtrees<'a> {
    /// The trees below these nodes.
    pub(crate) fn of(nodes: &'a [Node]) -> Subtrees<'a>
        requires within { AllWithin nodes.now }
        requires few { length nodes.now ≤ MOST_NUMBERS }
        ensures { result ≡ shapes nodes.now }
    {
        Subtrees { nodes }
    }

    /// The first node of the tree under a number. Its halves are among the trees.
    pub fn look(&self, at: u32) -> Look
        requires in_range { at < length self.now }
        ensures tree { subtree_at self.now at ≡ seen_by self.now result }
        ensures yes_half { result.yes_half < length self.now }
        ensures no_half { result.no_half < length self.now }
    {
        look_at(self.nodes[at as usize].kind, at)
    }
}

fn look_at(kind: Kind, at: u32) -> Look
    requires { HasRoomFor kind at }
    ensures { result ≡ look_under kind at }
{
    let (yes_half, no_half) = match kind {
        Kind::Split(_, _, half) => (at + half + 1, at + half + 2),
        Kind::Open | Kind::Lent(_) | Kind::Refuted(..) => (at, at),
    };
    let node = listed(kind);
    Look {
        node,
        yes_half,
        no_half,
    }
}
