//! The laws of the sure order: functions that do nothing, each with a law as its contract.
//!
//! The statements are in `specs/inside/SureLaws.antt`. They speak of every finish in the box of a
//! zone, whatever the zone's marks say, so that they hold of its members too.

ghost use Rattle.reason_laws.specs.inside.SureLaws.{SurelyAboveRanksBefore, SurelyBelowRanksBehind};
ghost use Rattle.reason_laws.specs.inside.SureLaws.{SurelyLevelIsLeftToLots, SingleZonesAreClear};
ghost use Rattle.reason_laws.specs.inside.SureLaws.{SingleZonesAreRanked};

/// If the options of each fixture have one outcome, what is sure of two clubs is so at each finish,
/// whatever the lots.
pub fn sure_order_is_true()
    ensures above { SurelyAboveRanksBefore }
    ensures below { SurelyBelowRanksBehind }
    ensures level { SurelyLevelIsLeftToLots }
{}

/// If each fixture has one option, it is known of any two clubs how they stand, and they stand as
/// the ranking has it before the lots.
pub fn single_zones_are_clear()
    ensures known { SingleZonesAreClear }
    ensures ranked { SingleZonesAreRanked }
{}
