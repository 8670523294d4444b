//! What a change of the season leaves of a tree of zones.
//!
//! Trees are those of `tree_arena`, and are seen as the one of league_core's
//! `specs/search/Trees.antt`. Read `specs/Retargets.antt` first, and
//! `specs/inside/Carrying.antt` for how a tree's nodes are gone through.
#![tactic(auto)]

mod box_moves;
mod carry;
mod halves;
mod laws;
mod retargeting;

pub use halves::MOST_KEPT;
pub use laws::{constants_are_the_limits, retargeting_keeps_what_holds};
pub use retargeting::{retarget, retarget_by, retarget_over};
pub use tree_arena::{MOST_NODES, Tree, TreeStop};
