//! The laws of bases, of items given a zone and of answers about a match: functions that do
//! nothing, each with laws as its contract.
//!
//! The statements are in `specs/inside/WhenLaws.antt`.

ghost use Rattle.what_if.specs.inside.WhenLaws.{OutcomesAreBases, OutcomesHaveAFinish};
ghost use Rattle.what_if.specs.inside.WhenLaws.{BasesAreForQuestions, BoxesOfBasesAreMembers};
ghost use Rattle.what_if.specs.inside.WhenLaws.{LoansStandBelowTheBase, ItemsGivenNothing};
ghost use Rattle.what_if.specs.inside.WhenLaws.{OpenMatchesHaveAnswers};

/// Each way in which a match may end is a base, and one that has a finish if the match is open.
pub fn outcomes_are_bases()
    ensures bases { OutcomesAreBases }
    ensures finish { OutcomesHaveAFinish }
{}

/// A base is a zone for any question, and what is found below it is a member of it.
pub fn bases_are_zones()
    ensures zones { BasesAreForQuestions }
    ensures members { BoxesOfBasesAreMembers }
    ensures loans { LoansStandBelowTheBase }
{}

/// Without a literal, what is said of a line and a club is what is said of it in the season.
pub fn items_given_nothing_are_the_seasons()
    ensures { ItemsGivenNothing }
{}

/// There is an answer about each match that is not played.
pub fn open_matches_have_answers()
    ensures { OpenMatchesHaveAnswers }
{}
