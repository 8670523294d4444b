//! What a line of a report or of a saved text is, read alone, and what the lines of a tree may
//! name.
//!
//! Read `specs/Tokens.antt` first, then `specs/RowFields.antt`, `specs/LineRanges.antt` and
//! `specs/TreeNodes.antt`. Nothing of the search is named here.
#![tactic(auto)]

mod ranges;
mod row_word;
mod token;
mod tree_line;

pub use ranges::{is_reason_for, is_test_for, is_wide_reason_for};
pub use row_word::RowWord;
pub use token::{Token, begins_proof, counts, read_token, token_at};
pub use tree_line::{TreeKind, node_of, spent_node_in, wide_node_of};
