//! Lines of a report or of a saved text that were written are read back, and are kept as types hold
//! them.
//!
//! The statements are in `specs/inside/WrittenLines.antt` and `specs/inside/WrittenReports.antt`.
#![tactic(auto)]

mod laws;

pub use laws::{written_lines_read_back, written_reports_read_back};
