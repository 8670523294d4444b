//! The law of questions: a function that does nothing, with the law as its contract.

ghost use Rattle.decide_run.specs.inside.WideDecided.{WideQuestionsAreDecided};

/// Each question has an example, or a refutation whose leaves may have near reasons.
pub fn questions_are_decided()
    ensures { WideQuestionsAreDecided }
{}
