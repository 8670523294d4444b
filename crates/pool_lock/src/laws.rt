//! The law of what lies under the lock.

ghost use Rattle.pool_lock.specs.inside.States.{IsGoodBetweenHolds};

use crate::guarded::Guarded;
use crate::job::Job;

/// Between two holds of a lock its pool is good, and of the job's sheet and questions: so is the
/// pool of each value that may lie under the lock of a job. The statement is in
/// `specs/inside/States.antt`.
pub fn pools_are_good_between_holds<J: Job>(held: &Guarded<J>)
    ensures { IsGoodBetweenHolds J.sheet J.questions held.now }
{
    held.pool.recall_invariant();
}
