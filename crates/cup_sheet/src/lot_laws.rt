//! The law on lots: functions that do nothing, each with a law as its contract.

ghost use Rattle.cup_sheet.specs.LotLaws.{LotsCanBeJoined, RestrictedLotsAreLots};

/// Lots of the groups and an order of their candidates are parts of some lots of the cup; and lots
/// of the cup are lots of each group within it.
pub fn lots_are_those_of_the_groups()
    ensures joined { LotsCanBeJoined }
    ensures restricted { RestrictedLotsAreLots }
{}
