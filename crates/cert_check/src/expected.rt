//! What distinguishes reports and their parts.

/// What the leaves of a report's trees may be.
#[derive(Clone, Copy, Debug, PartialEq, Eq)]
pub enum ReportKind {
    /// No leaf is refuted by a near reason.
    Plain,
    /// Leaves may be.
    Wide,
}

/// What a part of a report answers: an ask after so many events, in a report of this kind.
#[derive(Clone, Copy)]
pub struct AskedPart {
    pub kind: ReportKind,
    pub epoch: u64,
}

/// What was counted in a tree so far.
#[derive(Clone, Copy)]
pub struct Tally {
    /// How many nodes are new.
    pub news: usize,
    /// Some leaf is open.
    pub some_open: bool,
}

/// Which head a proof line is.
#[derive(Clone, Copy)]
pub enum Head {
    /// A refutation follows.
    RefutedTree,
    /// A tree on which the budget was spent follows.
    SpentTree,
    /// An example follows.
    Example,
}
