//! The laws of wide trees: a function that does nothing, with the laws as its contract.
//!
//! The statements are in `specs/inside/WideLaws.antt`.

ghost use Rattle.wide_lines.specs.inside.WideLaws.{WideRefutationsAreSound, RefutationsAreWide};
ghost use Rattle.wide_lines.specs.inside.WideLaws.{SpentTreesAreWide, WideRefutationsAreInRange};
ghost use Rattle.wide_lines.specs.inside.WideLaws.{WideSpentTreesAreInRange};

/// A question with a refuted wide tree has no example; what is shown without near leaves is shown
/// with them; and the lines of wide trees can be written.
pub fn wide_trees_are_sound()
    ensures sound { WideRefutationsAreSound }
    ensures refutations { RefutationsAreWide }
    ensures spent { SpentTreesAreWide }
    ensures refutation_lines { WideRefutationsAreInRange }
    ensures spent_lines { WideSpentTreesAreInRange }
{}
