//! The top call: an input's bytes in, the answers' bytes out, and one status.
//!
//! `specs/Modes.antt` says what the call promises. It rests on what a session writes, in
//! `specs/Runs.antt` of run_ends; `specs/Checks.antt` and `specs/SampleRows.antt` say what the
//! modes without asks write.
#![tactic(auto)]

mod check;
mod command;
mod groups;
mod groups_check;
mod halting;
mod sample;
mod session;
mod setup;

pub use command::futmax;
pub use run_ends::Status;
pub use setup::Setup;
