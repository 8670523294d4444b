//! Worked leagues.

mod kept;
pub mod league;
mod worked;
