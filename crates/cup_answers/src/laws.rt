//! The law of items without proofs: a function that does nothing.

ghost use Rattle.cup_answers.specs.inside.UnprovedItems.{CupItemsWithoutProofs};

/// If proofs are not asked for, the lines after clinched and lost are left out; the word stays.
pub fn items_of_cups_need_no_proofs()
    ensures { CupItemsWithoutProofs }
{}
