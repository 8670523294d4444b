//! Leagues that a number gives, for those who want one of full size, and the words of the verdicts
//! of one, counted.
//!
//! Read `specs/Samples.antt` first.
#![tactic(auto)]

mod counts;
mod draws;
mod sample;
mod sample_pool;

pub use counts::{Counts, count_sample};
pub use sample::make_sample;
