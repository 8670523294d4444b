//! What the definitions of a cup's answers come to: laws over the words of cup_sheet, each the
//! contract of a function that does nothing.
//!
//! The statements are in `specs/inside/`.
#![tactic(auto)]

mod laws;

pub use laws::{
    answers_of_cups_are_true, chosen_ends_are_joint, group_refutations_decide, sides_are_by_groups,
};
