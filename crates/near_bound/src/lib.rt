//! The near reason tested exactly, over what a zone leaves of each match.
//!
//! The meaning is near_laws' `specs/Near.antt`; read it first, then `specs/inside/ZonesLeft.antt`
//! here. No list of scores is ever made, and no call takes memory.
#![tactic(auto)]

mod able;
mod all_ends;
mod fit;
mod groups;
mod lead_table;
mod leads;
mod level;
mod margin;
mod match_left;
mod meetings;
mod near;
mod played;
mod points;
mod sides;
mod surely;
mod tie;
mod wrongs;
mod zone_left;

pub use lead_table::LeadTable;
pub use level::Level;
pub use match_left::MatchLeft;
pub use near::has_near;
pub use played::PlayedPart;
pub use points::PointEnds;
pub use zone_left::ZoneLeft;
