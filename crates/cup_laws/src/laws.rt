//! The laws of refutations in groups and of answers for cups: functions that do nothing, with laws
//! as their contracts.
//!
//! The statements are in `specs/inside/`.

ghost use Rattle.cup_laws.specs.inside.CupTruths.{ClinchedIsTrueInCup, GroupRefutationsAreSound};
ghost use Rattle.cup_laws.specs.inside.CupTruths.{LostIsTrueInCup, PossibleIsTrueInCup};
ghost use Rattle.cup_laws.specs.inside.ChosenEnds.{ChosenEndsAreJoint};
ghost use Rattle.cup_laws.specs.inside.GroupWays.{GroupsMakeSides, SidesAreByGroups};

/// A question about a group with a refutation has no example.
pub fn group_refutations_decide()
    ensures { GroupRefutationsAreSound }
{}

/// What an answer shows of a club of a cup is true of all its joint finishes.
pub fn answers_of_cups_are_true()
    ensures clinched { ClinchedIsTrueInCup }
    ensures lost { LostIsTrueInCup }
    ensures possible { PossibleIsTrueInCup }
{}

/// A club can be on a side exactly where its group and other groups can each end so by themselves.
pub fn sides_are_by_groups()
    ensures parts { SidesAreByGroups }
    ensures back { GroupsMakeSides }
{}

/// Ends of groups that are chosen one by one make a joint finish.
pub fn chosen_ends_are_joint()
    ensures { ChosenEndsAreJoint }
{}
