//! Plain programs that tests compare with: the walk over all finishes of a season, and trees of
//! zones in boxes.
//!
//! The walk is the plain program of the definition of a verdict: it looks at every finish, so it
//! serves seasons with few of them. Read `specs/inside/Reaches.antt` first. A tree in boxes is the
//! plain second body of the tree of `tree_arena`: both are seen as the tree of league_core's
//! `specs/search/Trees.antt`, and `ZoneTree` is the contract that both meet.
#![tactic(auto)]

mod boxed;
mod carried;
mod counting;
mod keeping;
mod laws;
mod lending;
mod lists;
mod meets_arena;
mod meets_boxed;
mod odometer;
mod of_sheet;
mod reach;
mod verdict;
mod walk;
mod zone_tree;

pub use boxed::BoxedTree;
pub use carried::{retarget, retarget_over};
pub use counting::finish_count;
pub use laws::reaches_decide;
pub use odometer::{first_finish, next_finish};
pub use reach::Reach;
pub use verdict::WalkVerdict;
pub use walk::reaches;
pub use zone_tree::ZoneTree;
