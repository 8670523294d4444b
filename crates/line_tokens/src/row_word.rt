//! What a verdict row says.

/// The word of a verdict row.
#[derive(Clone, Copy)]
pub enum RowWord {
    Clinched,
    Lost,
    Possible,
    Unsettled,
}
