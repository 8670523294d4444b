//! The tree in its arena beside the tree in boxes, and trees one node below the other: tests alone.
//!
//! `counts` tells a test what a call asks of it; `driven` has both bodies do the same calls, and
//! `both` has trees worked by hand in both; `rows` has more of them, and `carried` those that are
//! carried over a result; `order` tells which leaf is lent first. `toy_kind` is a search over
//! any kind.
#![tactic(auto)]

#[cfg(test)]
mod arena_vs_boxed;
#[cfg(test)]
mod carried;
#[cfg(test)]
mod counts;
#[cfg(test)]
mod driven;
#[cfg(test)]
mod order;
#[cfg(test)]
mod rows;
#[cfg(test)]
mod toy_kind;
