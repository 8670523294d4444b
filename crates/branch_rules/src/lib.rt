//! One piece of work: an example, a reason, or a fair split.
//!
//! The meaning is league_core's `specs/search/Splits.antt`, `Reasons.antt` and `Proposals.antt`,
//! and reason_core's `specs/inside/Findings.antt`; read these first, then `specs/inside/Found.antt`
//! here. Which rival or fixture a split takes is rated without a clause: each choice is proper and
//! due.
#![tactic(auto)]

mod bound_slack;
mod choice;
mod goals;
mod left;
mod outcomes;
mod piece_work;
mod rated;
mod rating;
mod reasons;
mod rivals;
mod search;
mod slack_table;
mod worker;

pub use choice::{Choice, choose, choose_seeing};
pub use piece_work::{work, work_with};
pub use reasons::first_reason;
pub use search::{find_with, proposed};
pub use worker::{ZoneSolver, move_to};
