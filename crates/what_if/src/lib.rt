//! What if: what each outcome of an open match would decide.
//!
//! Read league_core's `specs/search/GivenVerdicts.antt` first, then `specs/Given.antt` and
//! `specs/WhenTexts.antt` here; `specs/Steps.antt` has what a line says where a feed may ask so.
#![tactic(auto)]

mod given;
mod hints;
mod known_season;
mod laws;
mod literals;
mod outcome;
mod part;
mod row;
mod season_part;
mod step;
mod step_laws;
mod step_reader;
mod task;
mod when;

pub use given::verdicts_given;
pub use laws::{
    bases_are_zones, items_given_nothing_are_the_seasons, open_matches_have_answers,
    outcomes_are_bases,
};
pub use outcome::{Outcome, base_zone};
pub use step::{Step, Steps};
pub use step_laws::{lines_ask_about_unplayed_fixtures, other_lines_are_read_as_in_every_feed};
pub use step_reader::next_step;
pub use when::put_when;
