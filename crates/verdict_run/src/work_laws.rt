//! The law of turns: a function that does nothing.

ghost use Rattle.verdict_run.specs.inside.WorkLaws.{TurnsAreSteps};

/// Turns of work are steps of the pool, which take and give.
pub fn turns_are_steps()
    ensures { TurnsAreSteps }
{}
