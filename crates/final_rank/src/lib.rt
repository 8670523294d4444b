//! The table of a season: places, and the lots that matter for one club.
//!
//! The ranking is league_core's `Ranking`; read that first.
#![tactic(auto)]

mod around;
mod blocks;
mod drawing;
mod final_table;
mod places;
mod span;

pub use blocks::points;
pub use drawing::lots_for;
pub use final_table::table;
pub use places::{best_place, place, worst_place};
pub use span::{PlaceRange, spans};
