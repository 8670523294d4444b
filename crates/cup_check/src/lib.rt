//! The checker of reports on cups: parts of asks, and whole inputs. No crate of the search is below
//! it.
//!
//! The grammar and its meaning are cup_grammar's. What it is that a call reads what is due stands
//! in `specs/inside/CupGoes.antt`; read it first, then `specs/inside/CupCheckCalls.antt`. What an
//! input comes to stands in `specs/CupOutcomes.antt`, and that what is accepted is true in
//! `specs/inside/CupReportTruths.antt`.
#![tactic(auto)]

mod checking;
mod claimed_side;
mod entries;
mod groups;
mod input;
mod item;
mod joint;
mod keys;
mod leaf;
mod lots;
mod outcome;
mod parts;
mod place;
mod progress;
mod reason;
mod refuted;
mod report;
mod rows;
mod side_trees;
mod spent;
mod tree;
mod walk;

pub use checking::check_cup;
pub use input::check_cup_input;
pub use outcome::CupOutcome;
