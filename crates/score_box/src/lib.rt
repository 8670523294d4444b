//! The scores that are still open in a zone of a season, and the points that they leave to clubs.
//!
//! `Cell` has the open scores of one fixture, `ZoneBox` those of a zone, fixture by fixture, with
//! the zone's marks; `Played` has what many boxes of one season share. No list of scores is ever
//! made: a cell is a set of outcomes and two ranges of goals. The meaning is in league_core's
//! `specs/search/Options.antt` and `specs/search/PointRanges.antt`, and what a cell and a box stand
//! for in `specs/inside/Cells.antt` and `specs/inside/Boxes.antt` here.
#![tactic(auto)]

mod cell;
mod ends;
mod marks;
mod open_matches;
mod own;
mod played;
mod points;
mod season_cells;
mod set_points;
mod tables;
mod totals;
mod trail;
mod zone_box;

pub use cell::{Cell, ScoreRange};
pub use own::{own_least, own_most};
pub use played::Played;
pub use points::{MatchPoints, OutcomesLeft, PointRange};
pub use totals::Totals;
pub use zone_box::{HalvesWithFinish, ZoneBox};
