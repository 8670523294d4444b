//! The groups of a cup: where a club plays, where the numbers of a group begin, and what is asked
//! of a club in its group. Search and checker both stand on it.
//!
//! Read `specs/GroupStarts.antt` first.
#![tactic(auto)]

mod kinds;
mod question;
mod seat;
mod start;

pub use kinds::{listed_groups, nearer_kind, others_kind, place_kind, shown_groups};
pub use question::{DIRECT_PLACES, KindQuestion};
pub use seat::{ClubSeat, seat_of};
pub use start::{GroupStart, club_count, group_start};
