//! That each club of a cup has an answer, whatever the budget: laws, each the contract of a
//! function that does nothing.
//!
//! The statements are in `specs/inside/CupsDecided.antt`.
#![tactic(auto)]

mod laws;

pub use laws::{clubs_have_items, sides_are_decided};
