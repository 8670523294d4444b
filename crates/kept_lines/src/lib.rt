//! The lines of a text, kept in little more memory than their bytes until they are judged.
//!
//! Read `specs/LineLists.antt` first, then `specs/inside/LineBlocks.antt`.
#![tactic(auto)]

mod line_block;
mod line_head;
mod line_list;

pub use line_list::LineList;
