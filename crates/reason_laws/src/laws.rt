//! The laws of members and reasons: functions that do nothing, each with a law as its contract.
//!
//! The statements are in `specs/inside/Laws.antt`.

ghost use Rattle.reason_laws.specs.inside.Laws.{MembersAreInTheBox, PointsAreInTheirRange};
ghost use Rattle.reason_laws.specs.inside.Laws.{ReasonsAreSound, SingleZonesHaveOneFinish};
ghost use Rattle.reason_laws.specs.inside.Laws.{SingleZonesAreDecided};
ghost use Rattle.reason_laws.specs.inside.Laws.{SingleZonesAreDecidedByTwoLots};

/// What is read off a box holds of each member of its zone.
pub fn boxes_bound_their_members()
    ensures members { MembersAreInTheBox }
    ensures points { PointsAreInTheirRange }
{}

/// A zone in which a reason holds has no example.
pub fn reasons_are_sound()
    ensures { ReasonsAreSound }
{}

/// If each fixture has one option the search ends: the window or the criteria are a reason, or what
/// is left is an example.
pub fn single_zones_are_decided()
    ensures one { SingleZonesHaveOneFinish }
    ensures favoured { SingleZonesAreDecided }
    ensures drawn { SingleZonesAreDecidedByTwoLots }
{}
