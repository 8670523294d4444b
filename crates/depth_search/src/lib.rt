//! A search depth first within a budget, over any kind of example, reason and split.
//!
//! A kind says what may be found in a zone: an example, a reason why there is none, or a test that
//! splits the zone in two. Read `specs/inside/Cases.antt` first, then `specs/inside/Searches.antt`.
#![tactic(auto)]

mod kind;
mod laws;
mod path;
mod search;
mod zone_nodes;

pub use kind::{CaseNode, Kind, SearchEnd, ZoneLook};
pub use laws::{Decided, each_zone_is_decided, refuted_cases_leave_nothing};
pub use search::work_through;
pub use zone_nodes::new_nodes;
