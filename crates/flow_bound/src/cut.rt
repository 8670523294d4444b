//! Which ends of the rivals' points are counted.

/// The two kinds of cut. A floor cut counts least points, a ceiling cut counts most points with the
/// sign turned; all else is the same.
#[derive(Clone, Copy)]
pub enum Cut {
    /// Rivals that cannot all stay within the most points of the club.
    Floor,
    /// Rivals that cannot all come up to the least points of the club.
    Ceiling,
}
