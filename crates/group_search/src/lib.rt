//! Questions about one group of a cup, worked on to their end.
//!
//! Whether a club can end at a direct place, as its group's candidate with a key on one side of a
//! bound, or below the candidate. The meaning is cup_sheet's `specs/GroupQuestions.antt` and
//! `specs/GroupTrees.antt`; read these first, then `specs/inside/GroupLooks.antt` and
//! `specs/inside/GroupTasks.antt` here.
#![tactic(auto)]

mod example;
mod reason;
mod second;
mod task;

pub use task::solve_group;
