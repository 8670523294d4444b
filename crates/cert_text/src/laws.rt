//! The laws of lines: a function that does nothing, with the laws as its contract.
//!
//! The statements are in `specs/inside/LineLaws.antt`.

ghost use Rattle.cert_text.specs.inside.LineLaws.{ProperTreesHaveForms, RefutationsAreInRange};
ghost use Rattle.cert_text.specs.inside.LineLaws.{SpentTreesAreInRange, ExamplesAreInRange};

/// A tree of proper splits has tests such as lines have, and the lines of trees and of examples can
/// be written: they are in the ranges of their forms.
pub fn lines_are_in_range()
    ensures tests { ProperTreesHaveForms }
    ensures refutations { RefutationsAreInRange }
    ensures spent { SpentTreesAreInRange }
    ensures examples { ExamplesAreInRange }
{}
