//! What the reasons, the sums and the sure order of a zone say of its members, and what a tree of
//! zones says of its root: laws over the definitions of league_core.
//!
//! The statements are in specs/, `Laws.antt` first; a caller cites them, and the lemma modules, as
//! they are.
#![tactic(auto)]

mod key_laws;
mod laws;
mod outcome_laws;
mod refutations;
mod splits;
mod sure_laws;

pub use key_laws::keys_lie_between;
pub use laws::{boxes_bound_their_members, reasons_are_sound, single_zones_are_decided};
pub use outcome_laws::outcomes_decide_the_verdict;
pub use refutations::{examples_are_in_unsettled_leaves, refuted_trees_decide};
pub use splits::{
    halves_cover_the_zone, leaves_cover_the_season, leaves_decide_the_question,
    proper_splits_divide_weights, proper_trees_name_rivals, rival_tests_mark_one,
    score_tests_divide_finishes, weights_bound_trees,
};
pub use sure_laws::{single_zones_are_clear, sure_order_is_true};
