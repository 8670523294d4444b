//! An arena that is made from the list of a tree's nodes.

ghost use Rattle.std.specs.Prelude.{◌≡◌, ◌<◌, ◌≤◌, ◌+◌, ◌++◌, ◌∷◌, [], ℕ, List, length, reverse};
ghost use Rattle.std.specs.Prelude.{IfOk, IsTrue};
ghost use Rattle.std.specs.Option.{is_some};
ghost use Rattle.league_core.specs.search.TreeLists.{tree_of};
ghost use Rattle.tree_arena.specs.inside.Arena.{kind_over, halves_under, is_split_node};
ghost use Rattle.tree_arena.specs.inside.Calls.{most_nodes};
ghost use Rattle.tree_arena.specs.inside.Builds.{Starts, TakesNode, IsBuilt};

use crate::arena::write;
use crate::node::{Kind, MOST_NUMBERS, Node};
use league_core::{OutOfMemory, RoomyList, TreeNode};
use std::alloc::Global;

/// Whether a list is that of one tree.
pub fn is_tree(nodes: &[TreeNode]) -> bool
    ensures { result ≡ is_some (tree_of nodes.now) }
{
    let mut trees = 0usize;
    let mut at = nodes.len();
    while at > 0 {
        at -= 1;
        let splits = is_split(nodes[at]);
        if splits && trees < 2 {
            return false;
        }
        trees = if splits { trees - 1 } else { trees + 1 };
    }
    trees == 1
}

fn is_split(node: TreeNode) -> bool
    ensures { result ≡ is_split_node node }
{
    match node {
        TreeNode::Split { .. } => true,
        TreeNode::Open | TreeNode::Lent(_) | TreeNode::Refuted { .. } => false,
    }
}

/// The nodes so far, the places that wait for nodes of the list, the next one last, the leaves that
/// are open or lent, and those that are lent.
#[derive(Drop)]
pub struct Build {
    pub nodes: RoomyList<Node>,
    pub places: RoomyList<u32>,
    pub live: RoomyList<u32>,
    pub lent: RoomyList<u32>,
}

impl Build {
    // One place, and nothing else; with room for so many nodes, at least one.
    fn start(alloc: Global, many: usize) -> Result<Build, OutOfMemory>
        requires some { 0 < many }
        ensures { IfOk result Starts }
    {
        let mut nodes = RoomyList::new(alloc);
        nodes.reserve(many)?;
        nodes.push(Node {
            kind: Kind::Open,
            parent: 0,
            yes: true,
        });
        let mut places = RoomyList::new(alloc);
        places.reserve(1)?;
        places.push(0);
        let live = RoomyList::new(alloc);
        let lent = RoomyList::new(alloc);
        Ok(Build {
            nodes,
            places,
            live,
            lent,
        })
    }

    /// What is made of the list of a tree. Of the leaves that are open or lent the
    /// first one of the list comes last.
    pub fn of_list(alloc: Global, list: &[TreeNode]) -> Result<Build, OutOfMemory>
        requires few { length list.now ≤ most_nodes }
        requires some { IsTrue (is_some (tree_of list.now)) }
        ensures { IfOk result (IsBuilt list.now) }
    {
        let mut build = Build::start(alloc, list.len())?;
        for node in list {
            build.take(*node)?;
        }
        // No place is left over: their list takes the leaves, the last one first.
        build.places.reserve(build.live.len())?;
        turn_over(&mut build.live, &mut build.places);
        let Build {
            nodes,
            places: live,
            live: places,
            lent,
        } = build;
        Ok(Build {
            nodes,
            places,
            live,
            lent,
        })
    }

    // The next node of the list comes to the next place.
    fn take(&mut self, node: TreeNode) -> Result<(), OutOfMemory>
        requires some { 0 < length self.old.places.items }
        requires within { (rest : List ℕ) (at : ℕ) → self.old.places.items ≡ rest ++ at ∷ []
            → at < length self.old.nodes.items }
        requires few { length self.old.nodes.items + 2 ≤ MOST_NUMBERS }
        ensures { IfOk result (λ _. TakesNode node self.old self.new) }
    {
        let size = self.nodes.len() as u32;
        let place = self.places.pop();
        write(&mut self.nodes, place, kind(node, size - place - 1));
        match node {
            TreeNode::Open => {
                self.live.reserve(1)?;
                self.live.push(place);
            }
            TreeNode::Lent(_) => {
                self.live.reserve(1)?;
                self.live.push(place);
                self.lent.reserve(1)?;
                self.lent.push(place);
            }
            TreeNode::Refuted { .. } => {}
            TreeNode::Split { .. } => {
                push_halves(&mut self.nodes, place)?;
                self.places.reserve(2)?;
                self.places.push(size + 1);
                self.places.push(size);
            }
        }
        Ok(())
    }
}

// Moves what stands on one stack onto another, so that what was put on first comes off first. It
// takes no memory.
fn turn_over(from: &mut RoomyList<u32>, onto: &mut RoomyList<u32>)
    requires room { length from.old.items ≤ onto.old.room }
    ensures items { onto.new.items ≡ onto.old.items ++ reverse from.old.items }
    ensures room { onto.new.room + length from.old.items ≡ onto.old.room }
{
    while from.len() > 0 {
        let top = from.pop();
        onto.push(top);
    }
}

fn kind(node: TreeNode, half: u32) -> Kind
    ensures { result ≡ kind_over node half }
{
    match node {
        TreeNode::Open => Kind::Open,
        TreeNode::Lent(number) => Kind::Lent(number),
        TreeNode::Refuted { reason, fresh } => Kind::Refuted(reason, fresh),
        TreeNode::Split { test, fresh } => Kind::Split(test, fresh, half),
    }
}

fn push_halves(nodes: &mut RoomyList<Node>, parent: u32) -> Result<(), OutOfMemory>
    ensures { IfOk result (λ _. nodes.new.items
        ≡ nodes.old.items ++ halves_under parent) }
{
    nodes.reserve(2)?;
    let kind = Kind::Open;
    let yes = true;
    nodes.push(Node { kind, parent, yes });
    let yes = false;
    nodes.push(Node { kind, parent, yes });
    Ok(())
}
