//! Whether a club of a cup qualifies at a joint finish.
//!
//! Each group has its finish, and lots are drawn once for all clubs. The meaning is `qualifies_at`
//! of cup_sheet's `specs/Qualifying.antt`; read that first.
#![tactic(auto)]

mod better;
mod contender;
mod group_lots;
mod qualifying;

pub use group_lots::lots_within;
pub use qualifying::qualifies_at;
