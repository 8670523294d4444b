//! What can be asked of one group of a cup, and why it holds nowhere in a zone of the group.

use league_core::Reason;

/// What a question asks of a club at the end of its group. The candidate of a group is the club at
/// the first place that does not qualify by itself: the runner-up, if only the winner does.
#[derive(Clone, Copy, Debug, PartialEq, Eq)]
pub enum GroupKind {
    /// It qualifies by its place.
    Top,
    /// It ends below the candidate's place.
    Below,
    /// It is the candidate, with a lesser key than the question's.
    SecondLess,
    /// It is the candidate, with a key that is no less.
    SecondAtLeast,
    /// It is the candidate, with a greater key.
    SecondMore,
    /// It is the candidate, with a key that is no greater.
    SecondAtMost,
}

/// Why a question about a group holds nowhere in a zone. Clubs go by their numbers in the group.
#[derive(Clone, Copy, Debug, PartialEq, Eq)]
pub enum GroupReason {
    /// The club does not end so: of a question about its place alone.
    Plain(Reason),
    /// It ends below the candidate's place.
    In(Reason),
    /// It qualifies by its place.
    Out(Reason),
    /// Its key stays on the other side of the question's.
    ByKey,
}
