//! The verdicts of a season by a search whose leaves may have near reasons.
//!
//! Read wide_lines' `specs/WideTreeLines.antt` first, then `specs/FairTrees.antt` and
//! `specs/Decisions.antt` here: what an answer says of a line and a club, and what shows it; then
//! `specs/inside/WideLooks.antt` and `specs/inside/WideTasks.antt`.
#![tactic(auto)]

mod answer;
mod laws;
mod lines;
mod part;
mod solver;
mod task;

pub use answer::decide;
pub use laws::questions_are_decided;
