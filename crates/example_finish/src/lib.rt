//! The finish that is proposed for a zone, and whether a finish is an example of a question.
//!
//! No list of scores is ever made: the option that a fixture takes is read off its cell. The
//! meaning is league_core's `specs/search/Proposals.antt` and `specs/game/Questions.antt`; read
//! these first, then `specs/inside/Firsts.antt` here.
#![tactic(auto)]

mod criterion;
mod example;
mod lead;
mod option;
mod outcome;
mod points;
mod proposal;
mod proposed;
mod standing;
mod totals;
mod wins;
mod wishes;

pub use example::{is_example, try_example};
pub use option::first_option;
pub use proposal::propose;
pub use wishes::Wishes;
