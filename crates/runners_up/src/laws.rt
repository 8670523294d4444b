//! The laws on ends of groups put together, and on what is refuted: functions that do nothing, each
//! with a law as its contract.

ghost use Rattle.runners_up.specs.inside.JointEnds.{JointEndsShow};
ghost use Rattle.runners_up.specs.inside.SideLaws.{OpenGroupsLeaveSidesOpen};
ghost use Rattle.runners_up.specs.inside.SideLaws.{RefutedSidesAreRefuted};

/// Ends of the groups that show a side for a club are, put together, an example of it.
pub fn joint_ends_show()
    ensures { JointEndsShow }
{}

/// What is refuted of a club's place, of keys farther in and of other groups refutes the side.
pub fn refuted_sides_are_refuted()
    ensures { RefutedSidesAreRefuted }
{}

/// A group that is not known leaves the side unsettled, if the key is the one on which it turns.
pub fn open_groups_leave_sides_open()
    ensures { OpenGroupsLeaveSidesOpen }
{}
