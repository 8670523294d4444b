//! Rounds of a live feed with workers: results come in while a pool is worked on, up to the next
//! ask.
//!
//! What a round passes and tells stands in `specs/inside/Rounds.antt` of result_log, and how it
//! ends in that of plain_rounds; read these first.
#![tactic(auto)]

mod crew;
mod feeder;
mod feeder_state;
mod gate;
mod idle_source;
mod next;
mod piece;
mod slots;
mod sole_worker;
mod start;
mod threads;
mod worker;

pub use gate::{Gate, OpenGate, Point};
pub use threads::run_round;
pub use worker::{WorkerEnd, run_worker};
