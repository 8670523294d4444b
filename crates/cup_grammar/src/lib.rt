//! What a report on a cup is, line by line, and that what is accepted by it is true.
//!
//! Read `specs/CupDues.antt` first, then `specs/CupExpected.antt`, `specs/CupReports.antt` and
//! `specs/inside/CupRowTruths.antt`.
#![tactic(auto)]

mod laws;
mod token;

pub use laws::{
    accepted_cup_parts_are_true, written_cup_answers_are_accepted, written_cup_items_are_accepted,
};
pub use token::{CupToken, counts_in_cup, cup_token_at, read_cup_token};
