//! What a stop in a report on a cup says: the reading line by line is that of a grammar by cases.
//!
//! The grammar is in `specs/inside/CupCases.antt`, with its trees in
//! `specs/inside/GroupTreeCases.antt`; the statements are in `specs/inside/CupStops.antt`. Nothing
//! runs here.
#![tactic(auto)]

mod laws;

pub use laws::{accepted_cup_cases_are_proved, cup_stops_are_exact, proved_cup_cases_are_accepted};
