//! The sheet of a cup, as data.
//!
//! What a cup has to be is `IsCup` of `specs/Cups.antt`.

use league_core::{Listing, Name, Sheet};

/// Groups, each of which plays for itself. The winner of each group qualifies, and so do the best
/// of the runners-up.
#[derive(Drop)]
pub struct Cup {
    pub name: Name,
    /// 2 to 12 groups. Each is a sheet under the group's own name: 3 to 6 clubs, at most 60
    /// fixtures, no lines, and the goal limit and the budget of the cup.
    pub groups: Listing<Sheet>,
    /// How many of the runners-up qualify: from 1 to one less than the groups.
    pub quota: u8,
}

/// What the first record says of a cup.
#[derive(Drop)]
pub struct CupHead {
    pub name: Name,
    /// The goal limit of each group, 1 to 20.
    pub goal_limit: u8,
    /// The budget of each group, 1 to 50,000.
    pub budget: u32,
    /// How many of the runners-up qualify, as it was written: `season` tests it.
    pub quota: u32,
}

/// A cup's sheet so far.
#[derive(Drop)]
pub struct CupDraft {
    pub head: CupHead,
    /// The groups before the one begun last.
    pub groups: Listing<Sheet>,
    /// The group begun last, if one was begun.
    pub group: Option<Sheet>,
}
