//! The laws of zones: functions that do nothing, each with a law as its contract.
//!
//! The statements are in `specs/laws/ZoneLaws.antt`. They hold by the definitions alone, for every
//! sheet and every season, so that code and proofs elsewhere may rest on them.

ghost use Rattle.league_core.specs.laws.ZoneLaws.{FinishesTakeOptions, BoxesHoldFinishes};

/// A finish is one option for each fixture, and nothing else is; with the options that a zone
/// leaves it is a finish still.
pub fn finishes_take_options()
    ensures season { FinishesTakeOptions }
    ensures zone { BoxesHoldFinishes }
{}
