//! Laws of answers: that each question is decided (`completeness`), and each season has an answer
//! and a table (`season_answers`, `table_laws`), whatever the program does.
//!
//! The statements are in specs/; a caller cites them, and the lemma modules, as they are.
#![tactic(auto)]

mod completeness;
mod season_answers;
mod table_laws;

pub use completeness::{examples_can_be_met, questions_are_decided, some_split_is_due};
pub use season_answers::{each_season_has_an_answer, items_need_no_proofs};
pub use table_laws::each_season_has_a_table;
