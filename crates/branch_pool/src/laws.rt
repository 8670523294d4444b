//! The laws of pools: functions that do nothing, each with laws as contract.
//!
//! The statements are in `specs/inside/Laws.antt`.

ghost use Rattle.std.specs.Prelude.{◌≡◌};
ghost use Rattle.branch_pool.specs.inside.Laws.{StepsKeepPoolsGood, SoundPoolsAreGood};
ghost use Rattle.branch_pool.specs.inside.Laws.{TakenTicketsAreOwn, StepsKeepTickets};
ghost use Rattle.branch_pool.specs.inside.States.{most_questions};
ghost use Rattle.branch_pool.specs.inside.Laws.{TurnsLeaveLess, PoolsWithoutWorkAnswer};

use crate::question_state::MOST_QUESTIONS;

/// The constant is the number that the definitions state.
pub fn constants_are_the_limits()
    ensures { MOST_QUESTIONS ≡ most_questions }
{}

/// Whatever is taken, given back, reported and recalled, in whatever order, the pool is good.
pub fn pools_stay_good()
    ensures steps { StepsKeepPoolsGood }
    ensures sound { SoundPoolsAreGood }
{}

/// A ticket that is taken is one of the pool's, and stays one until its number is given back or all
/// that is out is recalled.
pub fn tickets_stay_own()
    ensures taken { TakenTicketsAreOwn }
    ensures kept { StepsKeepTickets }
{}

/// Work comes to an end, and then each question is answered.
pub fn work_comes_to_an_end()
    ensures less { TurnsLeaveLess }
    ensures answered { PoolsWithoutWorkAnswer }
{}
