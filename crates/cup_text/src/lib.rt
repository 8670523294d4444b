//! The proof lines of cups as text: examples over all groups, and trees about one group of a cup.
//!
//! The lines are in `src/cup_line.rt`; the text of each stands in `specs/CupLines.antt`, and which
//! line a text has the form of in `specs/CupForms.antt`.
#![tactic(auto)]

mod cup_line;
mod form;
mod leaf_value;
mod lists;
mod reader;
mod reason;
mod text;
mod value;

pub use cup_line::{CupKey, CupLeaf, CupLine, CupReason, GroupList};
pub use reader::read_cup_line;
pub use text::write_cup_line;
