//! Both ends of a club's key in a zone, read off a box.
//!
//! The meaning is league_core's `specs/search/Keys.antt` and `specs/inside/KeyEnds.antt` of
//! club_keys; read these first, then `specs/inside/RowEnds.antt` here. What a match leaves a side
//! is found outcome by outcome, in a fixed number of steps, and added up in one walk over the
//! fixtures. No call takes memory.
#![tactic(auto)]

mod ends;
mod goal_ends;
mod outcomes;
mod row_ends;
mod sums;

pub use ends::key_ends;
