//! The word of the epoch: threads read without a lock which event was the last, and what any of
//! them knows is a prefix of all events that there were.
//!
//! Read `specs/inside/Packs.antt` first: the word. `specs/inside/Seats.antt` says what contracts
//! see of a seat, and `specs/inside/Rule.antt` what every step keeps.
#![tactic(auto)]

mod code;
mod looking;
mod seats;
mod telling;
mod view;
mod word;

pub use code::pack;
pub use looking::{cancelled, look};
pub use seats::{Eye, Front, Owner};
pub use telling::{seen, tell};
pub use word::EpochWord;
