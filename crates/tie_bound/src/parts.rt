//! The sums that are compared before the clubs that share them are looked at.

/// Which of two clubs' sums are compared.
#[derive(Clone, Copy)]
pub enum Parts {
    /// Points, goal difference and goals, of the matches of a group.
    Record,
    /// Goal difference and goals, of all matches.
    FirstSums,
}
