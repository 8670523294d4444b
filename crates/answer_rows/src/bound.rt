//! What is known of the two numbers.

use cert_text::ProofLine;

/// What is known of one of the two numbers.
#[derive(Drop)]
pub enum Bound {
    /// This is the number, in points.
    Known(i32),
    /// There is no such number; only for the possible score.
    None,
    /// The number, if there is one, lies here, both ends included.
    Between {
        low: i32,
        high: i32,
        /// The tree on which the budget of the window question was spent, under its head.
        spent: Vec<ProofLine>,
    },
}

/// The two numbers of a club and a line.
#[derive(Drop)]
pub struct Score2 {
    /// The possible qualification score.
    pub pqs: Bound,
    /// The guaranteed qualification score.
    pub gqs: Bound,
}

/// The two numbers, with the line and the club that they are about.
#[derive(Drop)]
pub struct ClubScores {
    /// The number k of first places.
    pub line: u8,
    /// The club, by its number from 0.
    pub club: u8,
    pub scores: Score2,
}
