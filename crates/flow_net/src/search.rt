//! The breadth-first search for a way on which more can be sent.
//!
//! The queue is kept whole: it is the tree of the search too, since each entry names the entry
//! that it was reached from. An entry also keeps how much the whole way to it can take, so the
//! way is walked only once, back from the sink. A search is linear in the arcs and takes no
//! memory.
ghost use Rattle.std.specs.Prelude.{◌≡◌, ◌≢◌, ◌<◌, ℕ, List, true, false, IfOk, length, slice_index};
ghost use Rattle.std.specs.Bool.{OnFalse, OnTrue};
ghost use Rattle.flow_net.specs.inside.Flow.{IsWithinArcs, arc_at};
ghost use Rattle.flow_net.specs.inside.Direction.{head_of, room_of, tail_of};
ghost use Rattle.flow_net.specs.inside.Graph.{IsGraph};
ghost use Rattle.flow_net.specs.inside.Moves.{IsMoved};

use crate::arcs::Direction;
use crate::graph::Graph;
use std::alloc::{AllocError, Global};

/// A node of the queue, and the step that reached it.
#[derive(Clone, Copy)]
pub struct Reach {
    pub node: u16,
    pub before: u16,
    pub arc: u32,
    pub way: Direction,
    pub room: u32,
}

/// The nodes reached, as marks and as a queue.
#[derive(Drop)]
pub struct Search {
    pub reached: Vec<bool>,
    pub queue: Vec<Reach>,
}

impl Search {
    ghost use Rattle.flow_net.specs.declared.graph.Graph.{Graph};
    ghost use Rattle.flow_net.specs.inside.Search.{IsClosed, IsGrown, IsScanned, IsSearchOf};
    ghost use Rattle.flow_net.specs.inside.Search.{IsSized, has_reached, last_node, node_at};

    pub fn new(alloc: Global, nodes: u16) -> Result<Search, AllocError>
        ensures { IfOk result (IsSized nodes) }
    {
        let reached = vec![in alloc; false; nodes as usize]?;
        let queue = Vec::with_capacity(alloc, nodes as usize)?;
        Ok(Search { reached, queue })
    }

    // Starts anew with the source alone.
    fn begin(&mut self, source: u16)
        requires sized { IsSized (length self.old.reached.items) self.old }
        requires source_in_range { source < length self.old.reached.items }
        ensures sized { IsSized (length self.old.reached.items) self.new }
        ensures search { (graph : Graph) (flow : List ℕ) → IsSearchOf graph flow self.new }
        ensures source { node_at self.new 0 ≡ source }
        ensures others { (node : ℕ) → node ≢ source → has_reached self.new node ≡ false }
    {
        self.reached.fill(false);
        self.reached[source as usize] = true;
        self.queue.clear();
        let start = Reach {
            node: source,
            before: 0,
            arc: 0,
            way: Direction::Along,
            room: u32::MAX,
        };
        self.queue.push(start).unwrap();
    }

    // Reaches the far end of an arc from a place of the queue, if there is room and it is new. True
    // if this is the sink.
    #[inline]
    fn step(
        &mut self,
        graph: &Graph,
        flow: &[u32],
        way: Direction,
        place: usize,
        arc: usize,
        sink: u16,
    ) -> bool
        requires graph { IsGraph graph.now }
        requires within { IsWithinArcs graph.now.arcs.items flow.now }
        requires sized { IsSized graph.now.nodes self.old }
        requires search { IsSearchOf graph.now flow.now self.old }
        requires place_in_range { place < length self.old.queue.items }
        requires arc_in_range { arc < length graph.now.arcs.items }
        requires begins { tail_of way (arc_at graph.now.arcs.items arc) ≡ node_at self.old place }
        ensures search { IsSearchOf graph.now flow.now self.new }
        ensures grown { IsGrown self.old self.new }
        ensures reached { let over = arc_at graph.now.arcs.items arc in
            0 < room_of way over (slice_index flow.now arc)
            → has_reached self.new (head_of way over) ≡ true }
        ensures found { OnTrue result (last_node self.new ≡ sink) }
        ensures missed { has_reached self.old sink ≡ false
            → OnFalse result (has_reached self.new sink ≡ false) }
    {
        let over = graph.arcs[arc];
        let node = way.head(over);
        let room = way.room(over, flow[arc]);
        if room == 0 || self.reached[node as usize] {
            return false;
        }
        let room = room.min(self.queue[place].room);
        self.reached[node as usize] = true;
        let reach = Reach {
            node,
            before: place as u16,
            arc: arc as u32,
            way,
            room,
        };
        self.queue.push(reach).unwrap();
        node == sink
    }

    // Looks at the arcs of one way from a place of the queue. True if the sink was reached.
    fn scan(&mut self, graph: &Graph, flow: &[u32], way: Direction, place: usize, sink: u16) -> bool
        requires graph { IsGraph graph.now }
        requires within { IsWithinArcs graph.now.arcs.items flow.now }
        requires sized { IsSized graph.now.nodes self.old }
        requires search { IsSearchOf graph.now flow.now self.old }
        requires place_in_range { place < length self.old.queue.items }
        requires missed { has_reached self.old sink ≡ false }
        ensures search { IsSearchOf graph.now flow.now self.new }
        ensures grown { IsGrown self.old self.new }
        ensures found { OnTrue result (last_node self.new ≡ sink) }
        ensures missed { OnFalse result (has_reached self.new sink ≡ false) }
        ensures scanned { let node = node_at self.old place in
            let marks = self.new.reached.items in
            OnFalse result (IsScanned graph.now.arcs.items flow.now way marks node 0) }
    {
        let mut name = graph.first(way, self.queue[place].node);
        while name > 0 {
            let arc = name - 1;
            if self.step(graph, flow, way, place, arc, sink) {
                return true;
            }
            name = graph.next(way, arc);
        }
        false
    }

    /// Searches for a way from the source to the sink. True if there is one; the queue then ends
    /// with the sink.
    pub fn find(&mut self, graph: &Graph, flow: &[u32], source: u16, sink: u16) -> bool
        requires graph { IsGraph graph.now }
        requires within { IsWithinArcs graph.now.arcs.items flow.now }
        requires sized { IsSized graph.now.nodes self.old }
        requires source_in_range { source < graph.now.nodes }
        requires apart { source ≢ sink }
        ensures sized { IsSized graph.now.nodes self.new }
        ensures search { IsSearchOf graph.now flow.now self.new }
        ensures source { node_at self.new 0 ≡ source }
        ensures found { OnTrue result (last_node self.new ≡ sink) }
        ensures closed { OnFalse result
            (IsClosed graph.now.arcs.items flow.now source sink self.new.reached.items) }
    {
        self.begin(source);
        let mut place = 0;
        while place < self.queue.len() {
            if self.scan(graph, flow, Direction::Along, place, sink) {
                return true;
            }
            if self.scan(graph, flow, Direction::Against, place, sink) {
                return true;
            }
            place += 1;
        }
        false
    }

    /// Sends as much to the last node reached as the whole way to it can take, and returns how
    /// much.
    pub fn send(&self, graph: &Graph, flow: &mut [u32]) -> u32
        requires within { IsWithinArcs graph.now.arcs.items flow.old }
        requires search { IsSearchOf graph.now flow.old self.now }
        ensures within { IsWithinArcs graph.now.arcs.items flow.new }
        ensures some { 0 < result }
        ensures moved { let from = node_at self.now 0 in
            IsMoved graph.now.arcs.items flow.old flow.new from (last_node self.now) result }
    {
        let mut place = self.queue.len() - 1;
        let amount = self.queue[place].room;
        while place > 0 {
            let reach = self.queue[place];
            let arc = reach.arc as usize;
            flow[arc] = reach.way.sent(graph.arcs[arc], flow[arc], amount);
            place = reach.before as usize;
        }
        amount
    }

    /// The marks alone.
    pub fn into_marks(self) -> Vec<bool>
        ensures { result.items ≡ self.reached.items }
    {
        let Search { reached, queue: _ } = self;
        reached
    }
}
