//! What is known of a club and a line.

use cert_text::ProofLine;

/// What is known of whether a club ends inside a line.
#[derive(Clone, Copy, Debug, PartialEq, Eq)]
pub enum Word {
    /// It does, however the season ends.
    Clinched,
    /// It does not, however the season ends.
    Lost,
    /// It may, and it may not.
    Possible,
    /// The budget was spent before this was known.
    Unsettled,
}

/// The word for a line and a club, and the lines that show it, plain proof lines or others.
#[derive(Drop)]
pub struct Verdict<L = ProofLine> {
    /// The number k of first places.
    pub line: u8,
    /// The club, by its number from 0.
    pub club: u8,
    pub word: Word,
    /// A refutation after `Clinched` and `Lost`, two examples after `Possible`; after `Unsettled`
    /// an example or a tree for each of the two questions. Trees stand under their heads.
    pub proof: Vec<L>,
}
