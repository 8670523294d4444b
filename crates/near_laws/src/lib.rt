//! The near reason: why a zone has no member though matches are open.
//!
//! The meaning is in `specs/Near.antt`, and what it rests on in the modules before it.
#![tactic(auto)]

mod laws;

pub use laws::near_reasons_are_sound;
