//! What a worker is handed by the lock.

use branch_pool::Ticket;

/// What there is for a worker. A ticket must be consumed by `PoolLock::give` or its like.
pub enum LentOut {
    Work(Ticket),
    /// There is nothing to work on, nothing is out, and no event will come.
    Over,
}
