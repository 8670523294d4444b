//! The laws of the grammar: functions that do nothing, each with a law as its contract.
//!
//! The statements are in `specs/inside/`.

ghost use Rattle.cup_grammar.specs.inside.CupRowTruths.{AcceptedCupPartsAreTrue};
ghost use Rattle.cup_grammar.specs.inside.WrittenCupItems.{WrittenCupAnswersAreAccepted};
ghost use Rattle.cup_grammar.specs.inside.WrittenCupItems.{WrittenCupItemsAreAccepted};

/// Each row of an accepted part is true of the seasons, whatever joint finish may come.
pub fn accepted_cup_parts_are_true()
    ensures { AcceptedCupPartsAreTrue }
{}

/// What an answer with proofs writes of a club is accepted.
pub fn written_cup_items_are_accepted()
    ensures { WrittenCupItemsAreAccepted }
{}

/// So is a whole answer with proofs.
pub fn written_cup_answers_are_accepted()
    ensures { WrittenCupAnswersAreAccepted }
{}
