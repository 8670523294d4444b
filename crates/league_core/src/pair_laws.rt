//! The law of head-to-head sums: a function that does nothing, with the law as its contract.
//!
//! The statement is in `specs/inside/PairSums.antt`.

ghost use Rattle.league_core.specs.inside.PairSums.{GroupSumsAreOfPairs};

/// Whatever matches are worth, be it points, goal difference or goals: a club's sum in a group adds
/// up over the pairs that it makes there.
pub fn group_sums_are_of_pairs()
    ensures { GroupSumsAreOfPairs }
{}
