//! The key on which it turns whether a club of a cup qualifies.
//!
//! Missing turns on the least key with which the club can be its group's candidate, and qualifying
//! on the greatest. The meaning is cup_sheet's `specs/KeyBounds.antt`; read it first, then
//! `specs/inside/TurningLaws.antt` here.
#![tactic(auto)]

mod find;
mod halve;
mod key_part;
mod laws;
mod narrow;
mod part_range;
mod settle;
mod sought;
mod turning;

pub use laws::{turning_keys_are_within, turning_keys_exist};
pub use turning::{KeyEnd, turning_key};
