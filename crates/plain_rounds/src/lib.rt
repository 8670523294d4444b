//! Rounds of a feed on one thread, up to the next ask: each event is told to the pool, and nothing
//! is worked on.
//!
//!     source  ── entries ──>  pool  ── ask, end or stop ──>  the pool and how the round ended
//!
//! What a round passes and tells stands in `specs/inside/Rounds.antt` of result_log; read it first.
#![tactic(auto)]

mod parsed_round;
mod plain;
mod round;

pub use parsed_round::{ParsedRound, end_of, read_parsed};
pub use plain::read_round;
pub use round::{Round, RoundEnd};
