//! The answer to one club and one line.

/// What the verdict of a club and a line says. A season shows exactly one of the three.
#[derive(Clone, Copy, Debug, PartialEq, Eq)]
pub enum WalkVerdict {
    /// Every finish and every drawing of lots takes the club inside the line.
    Clinched,
    /// None does.
    Lost,
    /// Some do, and some do not.
    Possible,
}
