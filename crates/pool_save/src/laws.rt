//! The laws of saved trees: functions that do nothing, with laws as their contracts.

ghost use Rattle.pool_save.specs.inside.Nearly.{TurnsKeepNearly, WorkKeepsNearly, NearlyIsKnown};
ghost use Rattle.pool_save.specs.inside.Nearly.{SavedTreesAreNotSpent};
ghost use Rattle.pool_save.specs.inside.SavedLaws.{QuestionsHaveOwnRows, SavedTextsAreRead};
ghost use Rattle.pool_save.specs.inside.SavedBytes.{WrittenTextsAreRead};

/// A question whose tree has a reason at each open leaf, and no more open leaves than units left,
/// is not spent when the work on its pool is done. So it is with a saved tree that is taken up.
pub fn nearly_refuted_questions_are_not_spent()
    ensures turn { TurnsKeepNearly }
    ensures work { WorkKeepsNearly }
    ensures known { NearlyIsKnown }
    ensures saved { SavedTreesAreNotSpent }
{}

/// The lines of a saved text are read as the trees that it was made of, and nothing after them is,
/// if no two questions have one row. No two about a sheet have.
pub fn saved_texts_are_read_back()
    ensures texts { SavedTextsAreRead }
    ensures own_rows { QuestionsHaveOwnRows }
{}

/// The bytes of a saved text of a season are read as trees that its items have, one for each
/// question, whatever comes after them, and that is left.
pub fn written_texts_are_read_back()
    ensures { WrittenTextsAreRead }
{}
