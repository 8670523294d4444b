//! What a report has whose leaves may have near reasons: wide reasons, wide trees of zones, wide
//! lines and their texts.
//!
//! Which reason holds is in `specs/WideReasons.antt`, the trees in `specs/WideTrees.antt`, the
//! texts in `specs/WideTexts.antt`, and which lists of lines are trees in
//! `specs/WideTreeLines.antt`.
#![tactic(auto)]

mod laws;
mod wide_form;
mod wide_line;
mod wide_node;
mod wide_reason;
mod wide_text;

pub use laws::wide_trees_are_sound;
pub use wide_form::read_wide_line;
pub use wide_line::WideLine;
pub use wide_node::{WideNode, widened};
pub use wide_reason::WideReason;
pub use wide_text::write_wide_line;
