//! The near reason in a zone of the checker's, over the domains and the marks of the way to it.
//!
//! The meaning is near_laws' `specs/Near.antt`; read it first, then here
//! `specs/inside/MatchesOver.antt`. The test itself is near_bound's.
#![tactic(auto)]

mod near;

pub use near::has_near_on;
