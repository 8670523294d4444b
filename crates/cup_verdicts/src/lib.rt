//! The verdict on each club of a cup, with what shows it, as one list. The program writes them one
//! by one instead.
//!
//! What is promised of them stands in `specs/CupVerdicts.antt`.
#![tactic(auto)]

mod verdicts;
#[cfg(test)]
mod words;

pub use verdicts::{CupVerdict, cup_verdicts};
