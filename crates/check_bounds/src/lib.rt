//! The checker's own test of a reason: whether it holds in a zone; and its own ends of a key there.
//!
//! What a reason says is league_core's `specs/search/Reasons.antt` and `SureOrder.antt`; read these
//! first. Here each fixture has a domain of scores and its extremes (`cells.rt`,
//! `extreme_scores.rt`), and sums over the extremes are those over all options. Nothing of the
//! search is used. The near reason is tested by check_near.
#![tactic(auto)]

mod cells;
mod compare;
mod extreme_scores;
mod int_range;
mod key_ends;
mod open_counts;
mod outcomes;
mod reasons;
mod records;
mod rivals;
mod score_domain;
mod step;
mod sums;
mod table;
mod term;
mod tie_rounds;
mod total;
mod trail;
mod won;
mod zone;

pub use score_domain::{GoalRange, ScoreDomain};
pub use step::Marks;
pub use trail::{Trail, holds_in};
