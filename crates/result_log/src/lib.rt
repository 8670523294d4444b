//! Reads a league's feed: results, corrections, annulments, deductions and asks, one a call.
//!
//!     line  ── fields ──>  record  ── season of the events before it ──>  entry, or a refusal
//!
//! What a record tells, and why it is refused, stands in `specs/Records.antt`; what a whole feed
//! is, in `specs/Feeds.antt`. Read them in this order.
#![tactic(auto)]

mod content;
mod entries;
mod entry;
mod fault;
mod kind;
mod laws;
mod reader;
mod reading;
mod record;

pub use entries::{Entries, next_entry};
pub use entry::Entry;
pub use fault::{ContentStop, FeedFault, FeedStop};
pub use laws::{
    a_feed_is_read_entry_by_entry, a_feed_is_read_round_by_round, a_round_is_read_as_its_lines,
    events_told_may_be_applied,
};
pub use reader::next_parsed;
pub use reading::{Reading, SeasonSoFar};
pub use record::{fixture_of, read_event};
