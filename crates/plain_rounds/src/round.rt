//! What a round leaves: the pool, and how it ended.

use branch_pool::Pool;
use result_log::FeedStop;

/// A round that is over: the feed was read up to the next ask, its end or a stop, and told to the
/// pool.
#[derive(Drop)]
pub struct Round {
    pub pool: Pool,
    pub end: RoundEnd,
}

/// What ended a round.
#[derive(Clone, Copy, Debug, PartialEq, Eq)]
pub enum RoundEnd {
    /// An answer is asked for. The reader's number is that of the line.
    Ask,
    /// The input ended.
    End,
    /// A line was refused, or reading stopped.
    Stop(FeedStop),
}
