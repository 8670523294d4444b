//! The near reason in the zone of a box, for the search.
//!
//! The meaning is near_laws' `specs/Near.antt`; read it first, then here
//! `specs/inside/CellMatches.antt`, `ZoneMatches.antt` and `Sights.antt`. The test itself is
//! near_bound's.
#![tactic(auto)]

mod close;
mod ends;
mod keep;
mod left;
mod pressed;
mod side;
mod zone_matches;

pub use keep::{NearKeep, NearSight};
