//! Who is certainly before whom in a zone in which every match has one outcome but its scores may
//! be open, and the reason that rests on it; and whether a reason that is given holds.
//!
//! The meaning is league_core's `specs/search/SureOrder.antt` and `Reasons.antt`; read these first,
//! then `specs/inside/Sums.antt` here, which ties the tables of this crate to them. No call takes
//! memory: tables of the clubs stand on the stack.
#![tactic(auto)]

mod against;
mod answer_sets;
mod answers;
mod apart;
mod fixtures;
mod given;
mod int_range;
mod order;
mod outcomes;
mod parts;
mod rivals;
mod rows;
mod selected;
mod sides;
mod steps;
mod sums;
mod sure;
mod table;
mod taken;
mod tie;
mod tie_rounds;

pub use given::{count_reason, high_reason, holds, low_reason, window_reason};
pub use league_core::Sure;
pub use outcomes::has_one_outcome;
pub use sure::judge;
pub use tie::tie_reason;
