//! The words of the command, as the command that they give.
//!
//! `specs/Commands.antt` says which words fit, and what they say; which words such a command takes
//! at all is clap's own rule.
#![tactic(auto)]

mod command;
mod words;

pub use command::{Command, Mode};
pub use words::command_of;
