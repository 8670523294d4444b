//! The law of ranges: a function that does nothing, with the law as its contract.
//!
//! The statement is in `specs/inside/Extents.antt`.

ghost use Rattle.league_core.specs.inside.Extents.{RangesAreExact};

/// The least and the greatest value over some options bound the value at each of them, and each
/// is the value at one of them.
pub fn ranges_are_exact()
    ensures { RangesAreExact }
{}
