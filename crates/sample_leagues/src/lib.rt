//! Leagues for tests: read from text, as the program reads them, or drawn by a run of numbers.
//!
//! A drawn league is text too, so it is read by the same way; what a text may hold stands in
//! `fixture_sheet` and `result_log`.
#![tactic(auto)]

mod drawn;
mod draws;
mod sample;
mod zones;

pub use drawn::drawn_league;
pub use draws::Draws;
pub use sample::{Sample, sample_of};
pub use zones::{is_below, is_of_sheet};
