//! Reports checked with several processors.
//!
//! `check_all` cuts the answers to all asks into items by the grammar alone, judges the items side
//! by side, and tells the first stop: `specs/FirstStops.antt` comes first, `specs/Checked.antt` has
//! what it promises. `check_input` reads a whole input and checks its report by it.
#![tactic(auto)]

mod asks;
mod cutting;
mod feed_asks;
mod feed_report;
mod input;
mod item_due;
mod item_head;
mod item_line;
mod item_rows;
mod judging;
mod laws;
mod outline;
mod places;
mod reading;
mod report_check;
mod runs;
mod side_by_side;

pub use asks::{Asks, Cut, Item};
pub use cutting::{CutRead, cut, read_cut};
pub use input::check_input;
pub use judging::judge_item;
pub use laws::{shapes_suffice, the_first_stop_is_told};
pub use report_check::check_all;
