//! The laws of answers right after saved trees were taken up: functions that do nothing, with
//! laws as their contracts.

ghost use Rattle.pool_save.specs.inside.UnspentLaws.{TakenTreesAreNearlySaved, VerdictsAreUnspent};
ghost use Rattle.pool_save.specs.inside.UnspentLaws.{WorkKeepsNearlySaved, KnownWordsAreUnspent};
ghost use Rattle.pool_save.specs.inside.UnspentLaws.{KnownItemsAreUnspent, ShownLinesAreUnspent};
ghost use Rattle.pool_save.specs.inside.UnspentLaws.{UnspentVerdictsAreItems};
ghost use Rattle.pool_save.specs.inside.UnspentLaws.{EachSeasonHasUnspentItems};

/// In a pool that took up saved trees each question whose saved tree was nearly done is nearly
/// known, and stays so while the pool is worked on.
pub fn nearly_saved_questions_stay_so()
    ensures taken { TakenTreesAreNearlySaved }
    ensures work { WorkKeepsNearlySaved }
{}

/// When the work is done, the verdicts say of no such question that the budget was spent. Items
/// whose word is known say it of no question, and lines that are left out say nothing.
pub fn nearly_saved_questions_are_not_shown_spent()
    ensures verdicts { VerdictsAreUnspent }
    ensures words { KnownWordsAreUnspent }
    ensures items { KnownItemsAreUnspent }
    ensures shown { ShownLinesAreUnspent }
{}

/// The items of verdicts that say so of none, as they are written; and each season has such items.
pub fn unspent_verdicts_are_items()
    ensures items { UnspentVerdictsAreItems }
    ensures there { EachSeasonHasUnspentItems }
{}
