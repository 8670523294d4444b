//! The sheet over which a cup's feed is read, and the season of each group.
//!
//! What they are stands in `specs/CupFeeds.antt` of cup_sheet.
#![tactic(auto)]

mod joint;
mod laws;
mod seasons;

pub use joint::joint_sheet;
pub use laws::{feeds_give_seasons, numbers_go_both_ways};
pub use seasons::seasons_of;
