//! What comes of a line of a saved text.

/// What a line makes of what is read so far.
#[derive(Clone, Copy, PartialEq, Eq, Debug)]
pub enum Taken {
    /// The reading goes on.
    On,
    /// It is over: there is a place for each question.
    Whole,
    /// No saved text has such a line there.
    Bad,
}
