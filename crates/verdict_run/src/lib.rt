//! The verdicts of a season, by the work of one thread on a pool.
//!
//! Read `specs/inside/Working.antt` first. A law: turns of work are steps of the pool
//! (`work_laws`).
#![tactic(auto)]

mod answer;
mod fresh;
mod part;
mod reporting;
mod turns;
mod work_laws;

pub use answer::verdicts;
pub use fresh::solve_fresh;
pub use turns::finish;
pub use work_laws::turns_are_steps;
