//! The law of the three outcomes of a match: a function that does nothing, with laws as its
//! contract.
//!
//! The statements are in `specs/inside/OutcomeLaws.antt`.

ghost use Rattle.reason_laws.specs.inside.OutcomeLaws.{OutcomesRefute, OutcomesShow};
ghost use Rattle.reason_laws.specs.inside.OutcomeLaws.{ClinchedByOutcomes, LostByOutcomes};

/// A win of the home side, a draw and a win of the away side leave no way out: what is clinched or
/// lost with each of them is so in the season, and each example of the season has one of them.
pub fn outcomes_decide_the_verdict()
    ensures refuted { OutcomesRefute }
    ensures shown { OutcomesShow }
    ensures clinched { ClinchedByOutcomes }
    ensures lost { LostByOutcomes }
{}
