//! The laws of answers: functions that do nothing, each with a law as its contract.

ghost use Rattle.answer_laws.specs.inside.SeasonAnswers.{ItemsWithoutProofs};
ghost use Rattle.answer_laws.specs.inside.SeasonAnswers.{EachSeasonHasAnAnswer};

/// Each season has an answer, with proofs and without.
pub fn each_season_has_an_answer()
    ensures { EachSeasonHasAnAnswer }
{}

/// If proofs are not asked for, the lines after `Clinched` and `Lost` are left out; what is left
/// shows what it has to show then. The statement is in `specs/inside/SeasonAnswers.antt`.
pub fn items_need_no_proofs()
    ensures { ItemsWithoutProofs }
{}
