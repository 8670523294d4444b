//! Reads a cup's sheet from lines of csv, up to and with its record `season`, and says what is
//! asked of a cup: who qualifies, and what can be known of it before the end.
//!
//!     line  ── fields ──>  record  ── cup so far ──>  cup so far, or the cup, or a refusal
//!
//! What a cup may be stands in `specs/Cups.antt`, what a record makes of the cup so far in
//! `specs/CupRecords.antt`, what a whole input gives in `specs/CupReadings.antt`. Who qualifies
//! stands in `specs/Qualifying.antt`. Read them in this order.
#![tactic(auto)]

mod cup;
mod draft;
mod fault;
mod group;
mod lot_laws;
mod question;
mod reader;
mod record;

pub use cup::{Cup, CupDraft, CupHead};
pub use fault::{CupFault, CupStop};
pub use lot_laws::lots_are_those_of_the_groups;
pub use question::{GroupKind, GroupReason};
pub use reader::read_cup;
