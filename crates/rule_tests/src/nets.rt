ghost use Rattle.std.specs.Prelude.{◌<◌};

use flow_net::{Flow, Net};
use std::alloc::Global;
use std::process::Abort;
use std::test::Fail;

/// An arc: from, to, capacity.
type Row = (u16, u16, u32);

// Nodes; the sink (node 0 is the source); arcs by from, to and capacity; the greatest flow; and if
// it is known, for each node whether it is on the source's side of the cut. The first is of Cormen,
// Leiserson, Rivest and Stein, the trucks from Vancouver to Winnipeg: 23 crates a day. The second
// is the example of shortest ways from A to G in the encyclopedia's page on Edmonds and Karp; one
// arc leads into the source. The others are by hand: no arc, nothing fits, the sink is out of
// reach, arcs side by side and back, a way that is taken back, and a flow past 2^32.
const NETS: &str = "\
    6|5|0 1 16,0 2 13,1 3 12,2 1 4,2 4 14,3 2 9,3 5 20,4 3 7,4 5 4|23|111010\n\
    7|6|0 1 3,0 3 3,1 2 4,2 0 3,2 3 1,2 4 2,3 4 2,3 5 6,4 1 1,4 6 1,5 6 9|5|1110100\n\
    2|1||0|\n\
    2|1|0 1 0|0|\n\
    3|1|0 2 5,1 2 5|0|\n\
    2|1|0 1 3,0 1 4,1 0 5,0 0 9|7|\n\
    4|1|0 2 1,0 3 1,2 3 1,2 1 1,3 1 1|2|\n\
    4|1|0 2 4294967295,0 3 4294967295,2 3 1,2 1 4294967295,3 1 4294967295|8589934590|";

fn number(text: Option<&str>) -> Result<u64, Fail> {
    Ok(
        text.ok_or("no number")?
            .parse::<u64>()
            .ok()
            .ok_or("no number")?,
    )
}

fn node(text: Option<&str>) -> Result<u16, Fail> {
    Ok(u16::try_from(number(text)?).ok().ok_or("no node")?)
}

fn row_of(arc: &str) -> Result<Row, Fail> {
    let mut words = arc.split_whitespace();
    let (from, to) = (node(words.next())?, node(words.next())?);
    let capacity = u32::try_from(number(words.next())?)
        .ok()
        .ok_or("no capacity")?;
    Ok((from, to, capacity))
}

fn add(rt: &impl Abort, net: &mut Net, row: &Row) {
    assert!(rt; net.arcs() < net.room() && row.0 < net.nodes() && row.1 < net.nodes());
    net.add_arc(row.0, row.1, row.2);
}

fn add_all(rt: &impl Abort, net: &mut Net, arcs: &str) -> Result<(), Fail> {
    for arc in arcs.split_terminator(',') {
        add(rt, net, &row_of(arc)?);
    }
    Ok(())
}

fn found(
    rt: &impl Abort,
    alloc: Global,
    net: &mut Net,
    source: u16,
    sink: u16,
) -> Result<Flow, Fail> {
    assert!(rt; source < net.nodes() && sink < net.nodes() && source != sink);
    Ok(net.max_flow(alloc, source, sink)?)
}

fn value_found(rt: &impl Abort, alloc: Global, net: &mut Net) -> Result<u64, Fail> {
    let flow = found(rt, alloc, net, 0, 1)?;
    Ok(flow.value)
}

fn started(rt: &impl Abort, net: &mut Net, flow: &[u32]) -> bool {
    assert!(rt; 1 < net.nodes() && flow.len() == net.arcs());
    net.start_from(0, 1, flow)
}

fn carried(rt: &impl Abort, net: &Net, arc: usize) -> u32 {
    assert!(rt; arc < net.arcs());
    net.flow(arc)
}

fn check_side(rt: &impl Abort, flow: &Flow, side: &[u8]) {
    for (marked, wanted) in flow.source_side.iter().zip(side) {
        assert!(rt; *marked == (*wanted == b'1'));
    }
}

fn part(row: &str, place: usize) -> Option<&str> {
    row.split('|').nth(place)
}

fn check_flow(rt: &impl Abort, row: &str, flow: &Flow, wanted: u64) {
    assert_eq!(rt; flow.value, wanted, "{row}");
    check_side(rt, flow, part(row, 4).unwrap_or("").as_bytes());
}

fn check_net(
    rt: &impl Abort,
    alloc: Global,
    row: &str,
    net: &mut Net,
    sink: u16,
) -> Result<(), Fail> {
    let wanted = number(part(row, 3))?;
    add_all(rt, net, part(row, 2).unwrap_or(""))?;
    let flow = found(rt, alloc, net, 0, sink)?;
    check_flow(rt, row, &flow, wanted);
    Ok(())
}

fn check_row(rt: &impl Abort, alloc: Global, row: &str) -> Result<(), Fail> {
    let (nodes, sink) = (node(part(row, 0))?, node(part(row, 1))?);
    let mut net = Net::new(alloc, nodes, 40)?;
    check_net(rt, alloc, row, &mut net, sink)
}

#[test]
fn networks_have_their_flows(rt: HostRuntime) -> Result<(), Fail> {
    for row in NETS.lines() {
        check_row(&rt, rt.alloc(), row)?;
    }
    Ok(())
}

// From 0 over 2 to 1, and straight.
fn check_starts(rt: &impl Abort, alloc: Global, net: &mut Net) -> Result<(), Fail> {
    add_all(rt, net, "0 2 4,2 1 3,0 1 2")?;
    check_refused(rt, net);
    check_started(rt, alloc, net)
}

// Above the capacity, and if a node keeps some.
fn check_refused(rt: &impl Abort, net: &mut Net) {
    let above = started(rt, net, &[0, 0, 3]);
    let kept = started(rt, net, &[2, 1, 0]);
    assert!(rt; (above, kept, carried(rt, net, 0)) == (false, false, 0));
}

fn check_started(rt: &impl Abort, alloc: Global, net: &mut Net) -> Result<(), Fail> {
    let is_started = started(rt, net, &[1, 1, 0]);
    assert!(rt; (is_started, carried(rt, net, 0)) == (true, 1));
    let value = value_found(rt, alloc, net)?;
    assert!(rt; (value, carried(rt, net, 0)) == (5, 3));
    Ok(())
}

#[test]
fn only_whole_flows_are_started_from(rt: HostRuntime) -> Result<(), Fail> {
    let mut net = Net::new(rt.alloc(), 3, 40)?;
    check_starts(&rt, rt.alloc(), &mut net)
}

// A flow from the sink to the source is whole too. It is taken back, and two go the right way.
fn check_back(rt: &impl Abort, alloc: Global, net: &mut Net) -> Result<(), Fail> {
    add_all(rt, net, "1 0 7,0 1 2")?;
    assert!(rt; started(rt, net, &[7, 0]));
    let value = value_found(rt, alloc, net)?;
    assert!(rt; (value, carried(rt, net, 0)) == (2, 0));
    Ok(())
}

#[test]
fn a_flow_to_the_source_is_taken_back(rt: HostRuntime) -> Result<(), Fail> {
    let mut net = Net::new(rt.alloc(), 2, 40)?;
    check_back(&rt, rt.alloc(), &mut net)
}

// The next of the numbers of a linear congruential generator (Knuth's MMIX), below a bound.
fn next(state: &mut u64, bound: u32) -> u32
    requires { 0 < bound }
    ensures { result < bound }
{
    *state = state
        .wrapping_mul(6364136223846793005)
        .wrapping_add(1442695040888963407);
    (*state >> 33) as u32 % bound
}

fn has(mask: u32, node: u16) -> bool {
    node < 32 && mask >> node & 1 == 1
}

// What the arcs out of the side can carry.
fn crossing(rows: &[Row], side: u32) -> u64 {
    let mut total = 0u64;
    for row in rows {
        if has(side, row.0) && !has(side, row.1) {
            total = total.saturating_add(u64::from(row.2));
        }
    }
    total
}

// The least capacity of a cut between nodes 0 and 1, and the nodes that all such cuts share,
// by trying every side among six nodes.
fn least_by_trying(rows: &[Row]) -> (u64, u32) {
    let mut least = u64::MAX;
    let mut shared = 0;
    for side in 0..64 {
        if has(side, 0) && !has(side, 1) {
            let capacity = crossing(rows, side);
            if capacity < least {
                least = capacity;
                shared = side;
            } else if capacity == least {
                shared &= side;
            }
        }
    }
    (least, shared)
}

fn check_inside(rt: &impl Abort, flow: &Flow, shared: u32, rows: &[Row]) {
    for node in 0..6 {
        let inside = flow.source_side.get(usize::from(node)).copied();
        assert_eq!(rt; inside, Some(has(shared, node)), "{rows:?}");
    }
}

fn compare(rt: &impl Abort, flow: &Flow, rows: &[Row]) {
    let (least, shared) = least_by_trying(rows);
    assert_eq!(rt; flow.value, least, "{rows:?}");
    check_inside(rt, flow, shared, rows);
}

fn check_cut(rt: &impl Abort, alloc: Global, net: &mut Net, rows: &[Row]) -> Result<(), Fail> {
    let flow = found(rt, alloc, net, 0, 1)?;
    compare(rt, &flow, rows);
    Ok(())
}

fn drawn_row(state: &mut u64) -> Row {
    let (from, to) = (next(state, 6) as u16, next(state, 6) as u16);
    (from, to, next(state, 5))
}

// The flow found so far is gone on from as arcs are added.
fn check_arcs(
    rt: &impl Abort,
    alloc: Global,
    state: &mut u64,
    net: &mut Net,
    rows: &mut Vec<Row>,
) -> Result<(), Fail> {
    for _arc in 0..12 {
        let row = drawn_row(state);
        rows.push(row)?;
        add(rt, net, &row);
        check_cut(rt, alloc, net, rows.as_slice())?;
    }
    Ok(())
}

fn check_empty(rt: &impl Abort, alloc: Global, state: &mut u64, net: &mut Net) -> Result<(), Fail> {
    let mut rows = Vec::new(alloc);
    check_arcs(rt, alloc, state, net, &mut rows)
}

fn check_drawn(rt: &impl Abort, alloc: Global, state: &mut u64) -> Result<(), Fail> {
    let mut net = Net::new(alloc, 6, 12)?;
    check_empty(rt, alloc, state, &mut net)
}

#[test]
fn every_cut_of_small_networks(rt: HostRuntime) -> Result<(), Fail> {
    let mut state = 1;
    for _round in 0..300 {
        check_drawn(&rt, rt.alloc(), &mut state)?;
    }
    Ok(())
}
