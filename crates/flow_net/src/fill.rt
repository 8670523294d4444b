//! Filling a network: more is sent as long as a search finds a way with room.
ghost use Rattle.std.specs.Prelude.{◌≡◌, ◌≢◌, ◌+◌, ◌<◌, length};
ghost use Rattle.std.specs.Option.{ForSome};
ghost use Rattle.flow_net.specs.inside.Cut.{IsLeastCut, marked};
ghost use Rattle.flow_net.specs.inside.NetView.{start_of};
ghost use Rattle.flow_net.specs.inside.Flow.{IsFlow, IsWholeFlow, carried, enters, leaves};
ghost use Rattle.flow_net.specs.inside.Graph.{IsGraph};
ghost use Rattle.flow_net.specs.inside.Search.{IsClosed, IsSearchOf, IsSized, node_at};

use crate::arcs::Direction;
use crate::ends::{Ends, is_between};
use crate::graph::Graph;
use crate::search::Search;

// Begins with nothing on any arc, unless the flow is held for these two nodes.
fn restart(held: Option<Ends>, flow: &mut [u32], source: u16, sink: u16)
    ensures { flow.new ≡ start_of held flow.old source sink }
{
    if !is_between(held, source, sink) {
        flow.fill(0);
    }
}

// Goes on from a whole flow until no more can be sent. The search is left where it stuck.
fn fill(graph: &Graph, flow: &mut [u32], search: &mut Search, source: u16, sink: u16)
    requires graph { IsGraph graph.now }
    requires whole { IsWholeFlow graph.now.arcs.items source sink flow.old }
    requires sized { IsSized graph.now.nodes search.old }
    requires source_in_range { source < graph.now.nodes }
    requires apart { source ≢ sink }
    ensures whole { IsWholeFlow graph.now.arcs.items source sink flow.new }
    ensures sized { IsSized graph.now.nodes search.new }
    ensures search { IsSearchOf graph.now flow.new search.new }
    ensures source { node_at search.new 0 ≡ source }
    ensures closed { IsClosed graph.now.arcs.items flow.new source sink search.new.reached.items }
    ensures goes_on { let out = carried (leaves source) in
        let back = carried (enters source) in
        let arcs = graph.now.arcs.items in
        out arcs flow.new + back arcs flow.old ≡ out arcs flow.old + back arcs flow.new
        → flow.new ≡ flow.old }
{
    'more: while search.find(graph, flow, source, sink) {
        search.send(graph, flow);
    }
}

/// Raises the flow to the greatest, and returns its value. The search is left with the least cut.
pub fn greatest(
    graph: &Graph,
    held: Option<Ends>,
    flow: &mut [u32],
    search: &mut Search,
    source: u16,
    sink: u16,
) -> u64
    requires graph { IsGraph graph.now }
    requires one_each { length flow.old ≡ length graph.now.arcs.items }
    requires held { ForSome held
        (λ ends. IsWholeFlow graph.now.arcs.items ends.source ends.sink flow.old) }
    requires sized { IsSized graph.now.nodes search.old }
    requires source_in_range { source < graph.now.nodes }
    requires apart { source ≢ sink }
    ensures flow { IsFlow graph.now.arcs.items source sink flow.new result }
    ensures cut { let side = marked search.new.reached.items in
        IsLeastCut graph.now.arcs.items source sink result side }
    ensures sized { IsSized graph.now.nodes search.new }
    ensures goes_on { let start = start_of held flow.old source sink in
        IsFlow graph.now.arcs.items source sink start result → flow.new ≡ start }
{
    restart(held, flow, source, sink);
    fill(graph, flow, search, source, sink);
    graph.carried(flow, Direction::Along, source) - graph.carried(flow, Direction::Against, source)
}
