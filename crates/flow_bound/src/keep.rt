//! The flow that one search for a cut leaves to the next.
//!
//! Whatever is kept, the least cut of a network is one side, so no answer changes.

ghost use Rattle.std.specs.Prelude.{◌≡◌, ◌≢◌, ◌<◌, IfOk, None, length};
ghost use Rattle.flow_net.specs.inside.Cut.{IsLeastCut, marked};

use flow_net::{Flow, Net};
use league_core::OutOfMemory;
use std::alloc::Global;

/// The network of the last search that needed one, with its flow, or nothing.
#[derive(Drop)]
pub struct FlowKeep {
    net: Option<Net>,
}

impl FlowKeep {
    /// Nothing is kept yet. Takes no memory.
    pub fn new() -> FlowKeep
        ensures { result.net ≡ None }
    {
        FlowKeep { net: None }
    }
}

/// The greatest flow of a network between two nodes, with its least cut. It is sought from the kept
/// flow if that is one of this network too, and then the network is kept. If memory runs out, what
/// was kept stays.
pub fn max_flow_from(
    alloc: Global,
    net: Net,
    source: u16,
    sink: u16,
    keep: &mut FlowKeep,
) -> Result<Flow, OutOfMemory>
    requires source_in_range { source < net.nodes }
    requires sink_in_range { sink < net.nodes }
    requires apart { source ≢ sink }
    ensures cut { IfOk result
        (λ found. let side = marked found.source_side.items in
        IsLeastCut net.arcs source sink found.value side) }
    ensures one_each { IfOk result (λ found. length found.source_side.items ≡ net.nodes) }
{
    let mut net = net;
    start(&mut net, source, sink, keep);
    let flow = net.max_flow(alloc, source, sink)?;
    keep.net = Some(net);
    Ok(flow)
}

// Makes a network hold the kept flow, if that is one between its two nodes.
fn start(net: &mut Net, source: u16, sink: u16, keep: &FlowKeep)
    requires source_in_range { source < net.old.nodes }
    requires sink_in_range { sink < net.old.nodes }
    requires apart { source ≢ sink }
    ensures { net.new ≡ record net.old { flow = net.new.flow; ends = net.new.ends } }
{
    if let Some(last) = &keep.net {
        let flow = last.flows();
        if flow.len() == net.arcs() {
            net.start_from(source, sink, flow);
        }
    }
}
