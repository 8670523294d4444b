//! The pool: questions about a season while it is played, each with a tree that is worked on leaf
//! by leaf, by any number of workers.
//!
//! Read `specs/inside/States.antt` first: what a pool is. `specs/inside/Steps.antt` says what each
//! call does to it, `specs/inside/Goodness.antt` what all of them keep.
#![tactic(auto)]

mod adopt;
mod change;
mod discarded;
mod give;
mod laws;
mod loans;
mod next;
mod pool;
mod question_state;
mod questions;
mod take;
mod ticket;
mod work;

pub use discarded::Discarded;
pub use laws::{constants_are_the_limits, pools_stay_good, tickets_stay_own, work_comes_to_an_end};
pub use pool::Pool;
pub use question_state::{Loan, MOST_QUESTIONS, QuestionState};
pub use ticket::{Answer, ChangeStop, Gave, Ticket, Took, Turn};
