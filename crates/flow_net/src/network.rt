//! A network whose greatest flow is sought, and found with its least cut.
//!
//! The flow is raised along shortest ways with room, by breadth-first search. One search is
//! linear in nodes and arcs, and by the textbooks there are no more than nodes times arcs; no
//! clause says so. A call takes memory at its start, in proportion to the nodes, and none while
//! it searches.
ghost use Rattle.std.specs.Prelude.{◌≡◌, ◌≢◌, ◌≤◌, ◌<◌, ◌↔◌, [], ◌∷◌, ◌++◌, None, Some};
ghost use Rattle.std.specs.Prelude.{IfOk, IsTrue, OnErr, OnOk, length, slice_index};
ghost use Rattle.std.specs.Bool.{OnFalse, OnTrue};
ghost use Rattle.flow_net.specs.inside.Flow.{IsFlow, IsWholeFlow};
ghost use Rattle.flow_net.specs.inside.Cut.{IsLeastCut, marked};
ghost use Rattle.flow_net.specs.inside.NetView.{start_of};

use crate::arcs::Arc;
use crate::ends::Ends;
use crate::fill::greatest;
use crate::graph::Graph;
use crate::search::Search;
use league_core::OutOfMemory;
use std::alloc::Global;
use std::marker::Model;

/// Nodes numbered from 0, arcs numbered from 0 as they were added, and a flow on the arcs.
#[derive(Drop)]
pub struct Net {
    graph: Graph,
    room: usize,
    flow: Vec<u32>,
    ends: Option<Ends>,
}

impl Model for Net {
    ghost use Rattle.flow_net.specs.inside.NetView.{NetView};

    ghost Value = { NetView };

    ghost use Rattle.flow_net.specs.inside.Parts.{IsKept};

    ghost view = { λ net. record {
      nodes = net.graph.nodes;
      room = net.room;
      arcs = net.graph.arcs.items;
      flow = net.flow.items;
      ends = net.ends;
    } };

    ghost invariant = { IsKept };
}

/// What `max_flow` found.
#[derive(Drop)]
pub struct Flow {
    /// What goes from the source to the sink.
    pub value: u64,
    /// For each node whether it is on the source's side of the least cut.
    pub source_side: Vec<bool>,
}

impl Net {
    /// So many nodes, numbered from 0, and no arc yet, with room for `arcs` arcs.
    pub fn new(alloc: Global, nodes: u16, arcs: usize) -> Result<Net, OutOfMemory>
        requires { arcs ≤ 4_294_967_295 }
        ensures { IfOk result (λ net. net
            ≡ record { nodes = nodes; room = arcs; arcs = []; flow = []; ends = None }) }
    {
        let graph = Graph::new(alloc, nodes, arcs)?;
        let flow = Vec::with_capacity(alloc, arcs)?;
        Ok(Net {
            graph,
            room: arcs,
            flow,
            ends: None,
        })
    }

    /// How many nodes the net has.
    pub fn nodes(&self) -> u16
        ensures { result ≡ self.now.nodes }
    {
        self.graph.nodes
    }

    /// How many arcs the net can have.
    pub fn room(&self) -> usize
        ensures { result ≡ self.now.room }
    {
        self.room
    }

    /// How many arcs the net has.
    pub fn arcs(&self) -> usize
        ensures { result ≡ length self.now.arcs }
    {
        self.graph.arcs.len()
    }

    /// Adds an arc that carries nothing yet, between nodes by their numbers from 0. Its own number
    /// is how many arcs there were; it takes one arc's room, and no memory.
    pub fn add_arc(&mut self, from: u16, to: u16, capacity: u32)
        requires room { length self.old.arcs < self.old.room }
        requires from_in_range { from < self.old.nodes }
        requires to_in_range { to < self.old.nodes }
        ensures { self.new ≡ record self.old {
          arcs = self.old.arcs ++ record { from = from; to = to; capacity = capacity } ∷ [];
          flow = self.old.flow ++ 0 ∷ [];
        } }
    {
        self.graph.add(Arc { from, to, capacity });
        self.flow.push(0).unwrap();
    }

    /// What the arc carries, by its number from 0, in the order of adding.
    pub fn flow(&self, arc: usize) -> u32
        requires { arc < length self.now.arcs }
        ensures { result ≡ slice_index self.now.flow arc }
    {
        self.flow[arc]
    }

    /// What each arc carries, in the order of adding.
    pub fn flows(&self) -> &[u32]
        ensures { result.now ≡ self.now.flow }
    {
        self.flow.as_slice()
    }

    /// Holds the given flow, one number for each arc, if it is a whole flow between the two nodes;
    /// else the answer is false, and the net is as before. Takes no memory.
    pub fn start_from(&mut self, source: u16, sink: u16, flow: &[u32]) -> bool
        requires source_in_range { source < self.old.nodes }
        requires sink_in_range { sink < self.old.nodes }
        requires apart { source ≢ sink }
        requires one_each { length flow.now ≡ length self.old.arcs }
        ensures whole { IsTrue result ↔ IsWholeFlow self.old.arcs source sink flow.now }
        ensures held { OnTrue result (self.new ≡ record self.old {
          flow = flow.now;
          ends = Some (record { source = source; sink = sink });
        }) }
        ensures kept { OnFalse result (self.new ≡ self.old) }
    {
        if !self.graph.is_whole(flow, source, sink) {
            return false;
        }
        self.flow.as_mut_slice().copy_from_slice(flow);
        self.ends = Some(Ends { source, sink });
        true
    }

    /// Sends as much as can be sent from the source to the sink, and finds the least cut.
    ///
    /// A flow that the net holds for the same two nodes stays as it is if it is greatest already.
    /// The net then holds what was found; if memory runs out it is as before.
    pub fn max_flow(&mut self, alloc: Global, source: u16, sink: u16) -> Result<Flow, OutOfMemory>
        requires source_in_range { source < self.old.nodes }
        requires sink_in_range { sink < self.old.nodes }
        requires apart { source ≢ sink }
        ensures flow { IfOk result
            (λ found. IsFlow self.old.arcs source sink self.new.flow found.value) }
        ensures cut { IfOk result
            (λ found. let side = marked found.source_side.items in
            IsLeastCut self.old.arcs source sink found.value side) }
        ensures one_each { IfOk result
            (λ found. length found.source_side.items ≡ self.old.nodes) }
        ensures goes_on { let start = start_of self.old.ends self.old.flow source sink in
            IfOk result
            (λ found. IsFlow self.old.arcs source sink start found.value → self.new.flow ≡ start) }
        ensures held { OnOk result (self.new ≡ record self.old {
          flow = self.new.flow;
          ends = Some (record { source = source; sink = sink });
        }) }
        ensures err { OnErr result (self.new ≡ self.old) }
    {
        let mut search = Search::new(alloc, self.graph.nodes)?;
        let flow = self.flow.as_mut_slice();
        let value = greatest(&self.graph, self.ends, flow, &mut search, source, sink);
        self.ends = Some(Ends { source, sink });
        Ok(Flow {
            value,
            source_side: search.into_marks(),
        })
    }
}
