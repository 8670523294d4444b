//! Keys: by what a club is compared with clubs of other groups, with which it has no match and no
//! table in common.
//!
//! The meaning is league_core's `specs/search/Keys.antt`; read it first, then
//! `specs/inside/KeyEnds.antt` here. The laws of keys are in `specs/inside/KeyLaws.antt`. That the
//! key of a member lies between the ends of its zone is a law of `reason_laws`.
#![tactic(auto)]

mod club_key;
mod key_ends;
mod key_laws;
mod season_key;

pub use club_key::ClubKey;
pub use key_ends::KeyEnds;
pub use key_laws::{keys_are_in_order, single_zones_have_one_key};
pub use season_key::{key_of, rank_part};
