//! The checker of reports: it reads the lines of a report one by one, believes none of them, and
//! says whether every verdict in it follows.
//!
//! What may come is in `specs/ExpectedItems.antt`, what a report comes to in `specs/Machine.antt`,
//! and the grammar by cases in `specs/inside/Grammar.antt`; `src/laws.rt` joins them.
//!
//! A whole input in which a report is checked has a sheet, a feed that ends with the record
//! `proofs`, and the report, which is judged when all of it was read. What it comes to is in
//! `specs/Outcomes.antt`; what the calls promise, in `specs/inside/InputCalls.antt`. The crate
//! above, `par_check`, goes over it.
#![tactic(auto)]

mod checking;
mod example;
mod expected;
mod feed;
mod input_laws;
mod item;
mod laws;
mod lines;
mod outcome;
mod path;
mod ranges;
mod report;
mod row;
mod stop;
mod stops;
mod tree;

pub use checking::{check, check_end};
pub use expected::{AskedPart, Head, ReportKind, Tally};
pub use feed::{FeedRead, FeedSoFar, read_feed};
pub use input_laws::accepted_inputs_tell_truly;
pub use item::{PartRead, full_question, head_of};
pub use laws::{
    accepted_parts_are_proved, proved_parts_are_accepted, proved_rows_are_true,
    shown_answers_are_accepted, stops_are_exact,
};
pub use lines::{LinesStop, ReportLines, read_lines};
pub use outcome::{CheckFailure, CheckOutcome, ReportFault};
pub use path::next_half;
pub use ranges::{may_refute, same_claim};
pub use report::Report;
pub use row::{decimal_of, is_ask_row, word_in_row};
pub use stop::{Accepted, CheckStop, CheckStopAt};
pub use stops::{by_number, refused_by, short, stopped};
pub use tree::{is_tally_whole, with_fresh};
