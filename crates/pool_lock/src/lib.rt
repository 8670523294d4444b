//! The lock round the pool: workers take from it and give back to it, and one reporter reports
//! what changes.
//!
//! Read `specs/inside/Lends.antt` first: what is lent, and what becomes of what comes back. `Job`
//! names what all parts of one round have in common.
#![tactic(auto)]

mod front;
mod guarded;
mod in_place;
mod job;
mod laws;
mod lent_out;
mod lock;
mod returns;
mod work_badge;

pub use front::Front;
pub use job::Job;
pub use laws::pools_are_good_between_holds;
pub use lent_out::LentOut;
pub use lock::PoolLock;
pub use work_badge::WorkBadge;
