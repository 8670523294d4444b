//! One piece of work of a search: a part of a season and a question about it, and what can be
//! found there.
//!
//! Read `specs/inside/Findings.antt` first: what is true of a finding. A solver finds, a piece
//! keeps what it was asked, and what was done says both.
#![tactic(auto)]

mod done;
mod finding;
mod piece;
mod solver;

pub use done::Done;
pub use finding::Finding;
pub use piece::Piece;
pub use solver::Solver;
