//! The four answers to who ranks before whom, when the scores are not all known.

/// What is sure of a rival against a club in a zone whose outcomes are all fixed.
#[derive(Clone, Copy, Debug, PartialEq, Eq)]
pub enum Sure {
    /// The rival ranks before the club at every finish of the zone.
    Above,
    /// The rival ranks behind the club at every finish of the zone.
    Below,
    /// The two are left to lots at every finish of the zone.
    Level,
    /// The ranges of the sums do not say.
    Unknown,
}
