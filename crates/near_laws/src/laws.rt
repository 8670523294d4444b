//! The law of the near reason: a function that does nothing, with the law as its contract.
//!
//! The statement is in `specs/inside/NearLaws.antt`.

ghost use Rattle.near_laws.specs.inside.NearLaws.{NearReasonsAreSound};

/// A zone in which the near reason holds has no example.
pub fn near_reasons_are_sound()
    ensures { NearReasonsAreSound }
{}
