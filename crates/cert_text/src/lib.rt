//! What a report is written in: rows of fields, as CSV, and proof lines, as JSON.
//!
//! `write_row` has the rows, in the words of `specs/Rows.antt`; `write_line` the proof lines, whose
//! texts are in `specs/Lines.antt`. A row has its line feed, a proof line has none. `read_line`
//! reads a proof line back (`specs/Forms.antt`). Which lists of lines are trees and examples stands
//! in `specs/TreeLines.antt` and `specs/ExampleLines.antt`.
//!
//! Proof lines name fixtures and clubs of a league. What reads one at a place (`places`) or as the
//! test of a line (`test_below`) takes how many there are, so that it serves lines that name more
//! of them.
#![tactic(auto)]

mod forms;
mod laws;
mod line;
mod line_text;
pub mod places;
mod plain_form;
mod plain_node;
mod plain_number;
mod plain_row;
mod plain_test;
mod proof_line;
mod range;
mod reader;
mod row;
mod score_line;
mod values;

pub use forms::test_below;
pub use laws::lines_are_in_range;
pub use line::write_line;
pub use line_text::LineText;
pub use plain_node::node_in_line;
pub use proof_line::{ClubList, ProofLine, marked_line};
pub use range::{has_form, is_test_below};
pub use reader::{LineStop, read_line};
pub use row::write_row;
