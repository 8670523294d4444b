//! The lines of proofs about cups. Clubs and fixtures go by their numbers in the cup, from 0; the
//! trees of the search have the numbers of a group.

use cert_text::ClubList;
use cup_sheet::GroupKind;
use league_core::{Claim, Listing, Score, Test};

/// Seven numbers, in the order in which they decide; each from -100,000 to 100,000 in a line.
#[derive(Drop)]
pub struct CupKey {
    pub parts: Listing<i32>,
}

/// Groups by their numbers from 0, in a line in rising order.
#[derive(Drop)]
pub struct GroupList {
    pub list: Listing<u8>,
}

/// Why a question about a table holds nowhere in a zone. The clubs of a cut rise in a line.
#[derive(Drop)]
pub enum CupReason {
    Count,
    Window,
    Low(ClubList),
    High(ClubList),
    Tie,
}

/// Why a question about a group holds nowhere in a zone.
#[derive(Drop)]
pub enum CupLeaf {
    /// Of a question about a place alone.
    Plain(CupReason),
    /// The club ends below the candidate's place.
    In(CupReason),
    /// It ends at a direct place.
    Out(CupReason),
    /// Its key is on the other side.
    ByKey,
}

/// One line of a proof. Which lines may follow which is not kept here.
#[derive(Drop)]
pub enum CupLine {
    /// An example of the claim follows: scores of all groups, then lots of all clubs.
    Finish(Claim),
    /// How an unplayed fixture ends.
    Score {
        fixture: u16,
        score: Score,
    },
    /// The lots of an example.
    Lots(ClubList),
    /// A tree on which the budget was spent follows. Questions about a place alone have no key.
    Spent {
        kind: GroupKind,
        club: u8,
        key: Option<CupKey>,
    },
    /// A split; the half where the test is true follows, then the other.
    Split(Test),
    /// A split that counts as a unit of the budget.
    NewSplit(Test),
    /// A leaf in which the question does not hold.
    Leaf(CupLeaf),
    /// Such a leaf that counts as a unit of the budget.
    NewLeaf(CupLeaf),
    /// A leaf that was not worked on.
    OpenLeaf,
    /// The key of the refutations that follow.
    KeyLine(CupKey),
    /// The other groups of which they speak.
    Groups(GroupList),
    /// A refutation of the question of this kind about the club follows.
    Tree {
        kind: GroupKind,
        club: u8,
    },
}
