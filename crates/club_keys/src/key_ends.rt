//! Both ends of a club's key in a zone.

use crate::club_key::ClubKey;

/// The low key and the high key: what a zone leaves of each part at the least, and at the most. No
/// one finish need have all these parts.
#[derive(Clone, Copy, Debug, PartialEq, Eq)]
pub struct KeyEnds {
    pub low: ClubKey,
    pub high: ClubKey,
}
