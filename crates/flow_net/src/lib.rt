//! Maximum flow through a network, with the least cut that proves it greatest.
//!
//! Read `specs/inside/Flow.antt`, `specs/inside/Cut.antt` and `specs/inside/NetView.antt` first.
#![tactic(auto)]

mod arcs;
mod ends;
mod fill;
mod graph;
mod law;
mod lists;
mod network;
mod search;

pub use arcs::Arc;
pub use ends::Ends;
pub use law::no_flow_exceeds_a_cut;
pub use network::{Flow, Net};
