//! A session of a cup, by one thread: its sheet, and then the feed, entry by entry, with the answer
//! of each ask as it comes.
//!
//! It rests on the course of an input, in `specs/CupCourses.antt`, and on any answer to an ask of
//! it, which is left to the caller; `specs/CupLastReads.antt` says where the reading stops.
#![tactic(auto)]

mod answers;
mod round;
mod session;

pub use answers::CupAnswers;
pub use session::run_cup;
