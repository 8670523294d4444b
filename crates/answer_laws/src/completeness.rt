//! The laws of completeness: functions that do nothing, each with laws as its contract.

ghost use Rattle.answer_laws.specs.inside.Completeness.{SomeSplitIsDue, QuestionsAreDecided};
ghost use Rattle.answer_laws.specs.inside.Completeness.{QuestionsAreRefuted, ExamplesCanBeMet};

/// If a zone has a finish and is not single, some test of it is proper and due.
pub fn some_split_is_due()
    ensures { SomeSplitIsDue }
{}

/// Each question has an example or a refutation, so one without an example has a refutation.
pub fn questions_are_decided()
    ensures decided { QuestionsAreDecided }
    ensures refuted { QuestionsAreRefuted }
{}

/// A question that has an example has one that fair splits lead to.
pub fn examples_can_be_met()
    ensures { ExamplesCanBeMet }
{}
