//! Examples that a search by cases misses: a walk over whole finishes, one score changed at a time.
//!
//! A walk begins at a finish that favours the claim, and keeps a change where the cost does not
//! rise: how much is missing for the question to hold. How it gets there is in no contract; what it
//! answers was looked at once more, and is an example. Read league_core's `Questions` first.
#![tactic(auto)]

mod board;
mod cost;
mod draws;
mod example;
mod lead;
mod live;
mod row;
mod spread;
mod standing;
mod start;
mod tie_cost;
mod trials;
mod walking_solver;

pub use example::{walk, walk_from};
pub use walking_solver::WalkingSolver;
