//! What is known of a club of a cup, as data.

use crate::joint::JointFinish;
use crate::survey::{EmptyGroup, OpenGroup};
use club_keys::ClubKey;
use cup_sheet::GroupReason;
use depth_search::CaseNode;

/// What refutes a side: trees that are new.
#[derive(Drop)]
pub struct SideRefutation {
    /// The key on which it turns.
    pub key: ClubKey,
    /// The nodes of the tree about the club's place.
    pub place: Vec<CaseNode<GroupReason>>,
    /// Those of the tree about a key farther in.
    pub nearer: Vec<CaseNode<GroupReason>>,
    /// Other groups without a candidate on the far side of the key, in their order: as many as are
    /// needed, or more. The first so many are those that an answer lists.
    pub listed: Vec<EmptyGroup>,
}

/// What stands for a side that is not refuted.
#[derive(Drop)]
pub enum OpenSide {
    /// A joint finish at which the club is on the side.
    Shown(JointFinish),
    /// The budget was spent on a question on the way.
    Spent(OpenGroup),
}

/// What is known of a club, with what shows it.
#[derive(Drop)]
pub enum ClubFinding {
    /// It qualifies at each joint finish: what refutes that it misses.
    Clinched(SideRefutation),
    /// It qualifies at none: what refutes that it qualifies.
    Lost(SideRefutation),
    /// There are joint finishes of both kinds.
    Possible {
        inside: JointFinish,
        outside: JointFinish,
    },
    /// The budget was spent for one side or for both.
    Unsettled {
        inside: OpenSide,
        outside: OpenSide,
    },
}
