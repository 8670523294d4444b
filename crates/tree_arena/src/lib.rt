//! Trees of zones: how the search of a question takes a season apart, leaf by leaf.
//!
//! A tree is seen as the one of league_core's `specs/search/Trees.antt`. A leaf is open, lent to a
//! worker under a number, or refuted; whatever happens to it, the leaves together leave nothing
//! out. Read `specs/inside/Calls.antt` first, and `specs/inside/Arena.antt` for how the nodes
//! stand.
#![tactic(auto)]

mod arena;
mod build;
mod example;
mod last_path;
mod list;
mod node;
mod shorten;
mod stop;
mod subtrees;
mod tree;
mod zones;

pub use example::Example;
pub use stop::TreeStop;
pub use subtrees::{Look, Subtrees};
pub use tree::{MOST_NODES, Tree};
