//! The turns of a session on one thread: the sheet and what comes before the first ask that is
//! answered, and then, after each round of the feed, its ask, a stop or the end.
//!
//! It rests on the course of an input, which `specs/Courses.antt` reads line by line after its
//! sheet, and on the answers of `specs/Answers.antt`: verdicts from scratch, the table, or the two
//! scores; `specs/Texts.antt` says what the mode `save` writes at the end. What a whole session of
//! that kind writes stands in run_ends.
#![tactic(auto)]

mod answer;
mod begin;
mod closing;
mod halt;
mod laws;
mod opening;
mod turn;

pub use begin::take_sheet;
pub use halt::{Halt, halt_of, halt_of_steps};
pub use laws::a_course_is_read_line_by_line;
pub use turn::{Step, close_round};
