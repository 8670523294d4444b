//! How a run ends: why an input is read no further, the row that says so, and the status.
//!
//! Read `specs/InputEnds.antt` first.
#![tactic(auto)]

mod refuse;
mod rows;
mod run_end;
mod status;

pub use refuse::{
    InputStop, end_at_stop, stop_of_cup, stop_of_feed, stop_of_read, stop_of_sheet, unsaved,
};
pub use rows::{fault_row, usage_row};
pub use run_end::{Cause, Fault, RunEnd};
pub use status::Status;
