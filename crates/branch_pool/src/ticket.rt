//! What a worker is handed, and what the calls of a pool return.

use reason_core::Piece;

/// A piece of work that is out under a number. Must be consumed by `give` or `give_leaving`.
pub struct Ticket {
    /// The least number that was not out.
    pub number: u64,
    /// How many events the season had seen.
    pub epoch: u64,
    /// The place of the question among the pool's questions, from 0.
    pub place: u16,
    pub piece: Piece,
}

/// What there is to take.
pub enum Took {
    Lent(Ticket),
    /// There is nothing to work on now, but there may be later.
    Rest,
    /// There is nothing to work on, nothing is out, and no event will come.
    Over,
    OutOfMemory,
}

/// What became of what was given.
#[derive(Clone, Copy, Debug, PartialEq, Eq)]
pub enum Gave {
    Kept,
    /// The season has moved on, or the ticket is none of the pool's. The epoch is the present one.
    Stale { epoch: u64 },
}

/// What a turn of work without a ticket came to.
#[derive(Clone, Copy, Debug, PartialEq, Eq)]
pub enum Turn {
    Worked,
    /// There is nothing to work on.
    Nothing,
    OutOfMemory,
}

/// Why no event can be reported to the pool.
#[derive(Clone, Copy, Debug, PartialEq, Eq)]
pub enum ChangeStop {
    /// Its log has 100,000 events.
    LogFull,
    OutOfMemory,
}

/// How far a question is.
#[derive(Clone, Copy, Debug, PartialEq, Eq)]
pub enum Answer {
    /// An example is kept.
    Won,
    /// Every leaf of its tree is refuted, so there is no example.
    Refuted,
    /// Its budget of nodes is used up.
    Spent,
    NotYet,
}
