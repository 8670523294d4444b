//! The two qualification scores of a club and a line: with how few points it can still be inside
//! the line, and how many are enough whatever else happens.
//!
//! Read `specs/Scores.antt` first.
#![tactic(auto)]

mod all;
mod point_range;
mod reach;
mod score_laws;
mod search;
mod window;

pub use all::all_scores;
pub use answer_rows::{Bound, ClubScores, Score2};
pub use score_laws::{each_season_has_scores, scores_are_there};
pub use search::scores;
