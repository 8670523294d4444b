//! Which halves of a split stay over a change of the season.

/// The most nodes that a tree has after it was carried over.
pub const MOST_KEPT: u32 = 100_001;

/// Both halves, or one in place of the split.
#[derive(Clone, Copy)]
pub enum Halves {
    Both,
    YesAlone,
    NoAlone,
}
