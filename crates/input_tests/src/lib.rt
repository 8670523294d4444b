//! Tests of the lowest crates: lists and seasons, lines, sheets and feeds.
//!
//! They stand here and not beside the code, since a crate with tests is proved twice. The modules
//! `line_telling`, `sheet_telling` and `feed_telling` write out what is read; a table of cases is a
//! text, which `rows` takes apart.
#![tactic(auto)]

#[cfg(test)]
mod feed_telling;
#[cfg(test)]
mod feed_tests;
#[cfg(test)]
mod field_tests;
#[cfg(test)]
mod line_limits;
#[cfg(test)]
mod line_telling;
#[cfg(test)]
mod line_tests;
#[cfg(test)]
mod list_tests;
#[cfg(test)]
mod row_tests;
#[cfg(test)]
mod rows;
#[cfg(test)]
mod season_tests;
#[cfg(test)]
mod sheet_telling;
#[cfg(test)]
mod sheet_tests;
