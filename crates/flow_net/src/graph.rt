//! The arcs of a network with the lists by which a search finds them.
ghost use Rattle.std.specs.Prelude.{◌≡◌, ◌<◌, ◌+◌, ◌↔◌, ℕ, [], ◌∷◌, ◌++◌, IfOk, IsTrue, length};
ghost use Rattle.flow_net.specs.inside.Flow.{IsWholeFlow, IsWithinArcs, arc_at, carried, enters};
ghost use Rattle.flow_net.specs.inside.Flow.{leaves};
ghost use Rattle.flow_net.specs.inside.Direction.{tail_of};
ghost use Rattle.flow_net.specs.inside.Lists.{IsNewest};
ghost use Rattle.flow_net.specs.inside.Graph.{HasEnds, HasRoom, IsGraph, begins_at};

use crate::arcs::{Arc, Direction};
use crate::lists::Lists;
use std::alloc::{AllocError, Global};

#[derive(Drop)]
pub struct Graph {
    pub nodes: u16,
    pub arcs: Vec<Arc>,
    pub leaving: Lists,
    pub entering: Lists,
}

impl Graph {
    /// So many nodes and no arc yet.
    pub fn new(alloc: Global, nodes: u16, room: usize) -> Result<Graph, AllocError>
        ensures graph { IfOk result IsGraph }
        ensures nodes { IfOk result (λ graph. graph.nodes ≡ nodes) }
        ensures no_arc { IfOk result (λ graph. graph.arcs.items ≡ []) }
        ensures room { IfOk result (HasRoom room) }
    {
        let arcs = Vec::with_capacity(alloc, room)?;
        let leaving = Lists::new(alloc, nodes, room)?;
        let entering = Lists::new(alloc, nodes, room)?;
        Ok(Graph {
            nodes,
            arcs,
            leaving,
            entering,
        })
    }

    pub fn add(&mut self, arc: Arc)
        requires graph { IsGraph self.old }
        requires ends { HasEnds self.old.nodes arc }
        requires room { HasRoom (length self.old.arcs.items + 1) self.old }
        requires few { length self.old.arcs.items < 4_294_967_295 }
        ensures graph { IsGraph self.new }
        ensures nodes { self.new.nodes ≡ self.old.nodes }
        ensures arcs { self.new.arcs.items ≡ self.old.arcs.items ++ arc ∷ [] }
        ensures room { (room : ℕ) → HasRoom room self.old → HasRoom room self.new }
    {
        self.arcs.push(arc).unwrap();
        self.leaving.add(arc.from);
        self.entering.add(arc.to);
    }

    /// The newest arc at which a step from the node begins, by one more than its place; 0 for none.
    #[inline]
    pub fn first(&self, way: Direction, node: u16) -> usize
        requires graph { IsGraph self.now }
        requires node_in_range { node < self.now.nodes }
        ensures { IsNewest way self.now.arcs.items node (length self.now.arcs.items) result }
    {
        match way {
            Direction::Along => self.leaving.first[node as usize] as usize,
            Direction::Against => self.entering.first[node as usize] as usize,
        }
    }

    /// The next older arc at which a step from the same node begins.
    #[inline]
    pub fn next(&self, way: Direction, place: usize) -> usize
        requires graph { IsGraph self.now }
        requires place_in_range { place < length self.now.arcs.items }
        ensures { let arcs = self.now.arcs.items in
            IsNewest way arcs (tail_of way (arc_at arcs place)) place result }
    {
        match way {
            Direction::Along => self.leaving.next[place] as usize,
            Direction::Against => self.entering.next[place] as usize,
        }
    }

    /// What the arcs carry together at which a step from the node begins.
    pub fn carried(&self, flow: &[u32], way: Direction, node: u16) -> u64
        requires graph { IsGraph self.now }
        requires one_each { length flow.now ≡ length self.now.arcs.items }
        requires node_in_range { node < self.now.nodes }
        ensures { result ≡ carried (begins_at way node) self.now.arcs.items flow.now }
    {
        let mut total = 0;
        let mut name = self.first(way, node);
        while name > 0 {
            let place = name - 1;
            total += flow[place] as u64;
            name = self.next(way, place);
        }
        total
    }

    // Whether no arc carries more than its capacity.
    fn is_within(&self, flow: &[u32]) -> bool
        requires one_each { length flow.now ≡ length self.now.arcs.items }
        ensures { IsTrue result ↔ IsWithinArcs self.now.arcs.items flow.now }
    {
        for place in 0..self.arcs.len() {
            if flow[place] > self.arcs[place].capacity {
                return false;
            }
        }
        true
    }

    // Whether as much leaves the node as enters it.
    fn is_passed_on(&self, flow: &[u32], node: u16) -> bool
        requires graph { IsGraph self.now }
        requires one_each { length flow.now ≡ length self.now.arcs.items }
        requires node_in_range { node < self.now.nodes }
        ensures { let arcs = self.now.arcs.items in
            IsTrue result
            ↔ (carried (leaves node) arcs flow.now ≡ carried (enters node) arcs flow.now) }
    {
        self.carried(flow, Direction::Along, node) == self.carried(flow, Direction::Against, node)
    }

    /// Whether the numbers are a whole flow between the two nodes.
    pub fn is_whole(&self, flow: &[u32], source: u16, sink: u16) -> bool
        requires graph { IsGraph self.now }
        requires one_each { length flow.now ≡ length self.now.arcs.items }
        ensures { IsTrue result ↔ IsWholeFlow self.now.arcs.items source sink flow.now }
    {
        if !self.is_within(flow) {
            return false;
        }
        for node in 0..self.nodes {
            if node != source && node != sink && !self.is_passed_on(flow, node) {
                return false;
            }
        }
        true
    }
}
