//! Groups of clubs on one number of points: which of them the tie-break criteria put ahead.
//!
//! The criteria are league_core's `Ahead`: the head-to-head record in the group, taken again in
//! each smaller group that it leaves level, then the sums over all matches, then the fixed rank;
//! or, by the sheet's order, difference and goals over all matches before all that. Read
//! `specs/inside/Parts.antt` first, which ties the types here to those definitions.
#![tactic(auto)]

mod blocks;
mod keys;
mod measure;
mod mini_table;
mod points;
mod records;
mod sums;
mod tail;
mod triple;

pub use blocks::refine;
pub use keys::Keys;
pub use mini_table::{MiniTable, Row};
pub use points::points_of;
pub use tail::{Tail, tail_of};
pub use triple::{Triple, triple_of};
