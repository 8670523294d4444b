//! What is known of a club of a cup, and what each of its sides comes to.
//!
//! Whether a club can qualify, or can miss: a joint finish shows it, trees refute it, or the budget
//! was spent on the way. The meaning is cup_sheet's `specs/CupAnswers.antt`; read it first, then
//! `specs/inside/CupSides.antt` here; a finding stands in runners_up.
#![tactic(auto)]

mod by_key;
mod cup_side;
mod far;
mod finding;
mod side;

pub use cup_side::CupSide;
pub use finding::club_finding;
pub use side::side_of;
