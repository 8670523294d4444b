//! What a side comes to, as data.

ghost use Rattle.std.specs.Prelude.{◌≡◌};
ghost use Rattle.cup_sides.specs.inside.CupSides.{whole_side};

use club_keys::ClubKey;
use cup_sheet::GroupReason;
use depth_search::CaseNode;
use runners_up::{JointFinish, OpenGroup, SideAtKey, SideRefutation};

/// What a side of a club comes to.
#[derive(Drop)]
pub enum CupSide {
    /// A joint finish at which the club is on the side.
    Shown(JointFinish),
    /// It is on that side at none.
    Refuted(SideRefutation),
    /// The budget was spent on a question on the way.
    Spent(OpenGroup),
}

/// The side at the turning key, with the trees about the club itself.
pub(crate) fn whole_side(
    side: SideAtKey,
    key: ClubKey,
    place: Vec<CaseNode<GroupReason>>,
    nearer: Vec<CaseNode<GroupReason>>,
) -> CupSide
    ensures { result ≡ whole_side side key place nearer }
{
    match side {
        SideAtKey::Shown(joint) => CupSide::Shown(joint),
        SideAtKey::Refuted(listed) => CupSide::Refuted(SideRefutation {
            key,
            place,
            nearer,
            listed,
        }),
        SideAtKey::Spent(group) => CupSide::Spent(group),
    }
}
