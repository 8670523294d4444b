//! The answers of an ask: verdicts, the table and the two scores, as rows on their way to the sink.
//!
//! Read `specs/Items.antt` and `specs/Rows.antt` first, then `specs/inside/Outputs.antt`.
#![tactic(auto)]

mod asked;
mod bound;
mod fields;
mod lines;
mod output;
mod part;
mod places;
mod proof_lines;
mod rows;
mod scores;
mod solved;
mod table;
mod table_row;
mod verdicts;
mod word;

pub use asked::{full_question, questions};
pub use bound::{Bound, ClubScores, Score2};
pub use fields::{club_name, number_field, signed_field, text_field};
pub use lines::{put_ask, put_lines};
pub use output::{OutputStop, put_part, put_row};
pub use part::{Part, PartKind, append, joined, word_of};
pub use places::put_table;
pub use proof_lines::{example_lines, spent_lines, window_lines};
pub use scores::put_scores;
pub use solved::Solved;
pub use table::{ClubRow, table_rows};
pub use table_row::TableRow;
pub use verdicts::{put_items, put_verdict, put_verdicts};
pub use word::{Verdict, Word};
