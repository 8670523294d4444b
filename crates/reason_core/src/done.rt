//! What came of a piece.

ghost use Rattle.std.specs.Prelude.{◌≡◌, ◌↔◌, IsTrue};
ghost use Rattle.reason_core.specs.inside.Dones.{IsFor, done_of, finding_of};

use crate::finding::Finding;
use crate::piece::Piece;
use league_core::{Finish, Literal, Lots, Reason};

/// A piece with what was found there, or nothing.
#[derive(Drop)]
pub enum Done {
    Refuted(Piece, Reason),
    Split(Piece, Literal),
    Won(Piece, Finish, Lots),
    /// The piece was not worked on, or given up.
    Undone,
}

impl Done {
    /// The piece, handed on with what was found there.
    pub fn of(piece: Piece, finding: Finding) -> Done
        ensures { result ≡ done_of piece finding }
    {
        match finding {
            Finding::Refuted(reason) => Done::Refuted(piece, reason),
            Finding::Split(literal) => Done::Split(piece, literal),
            Finding::Won(finish, lots) => Done::Won(piece, finish, lots),
        }
    }

    /// What was found, without the piece.
    pub fn into_finding(self) -> Option<Finding>
        ensures { result ≡ finding_of self }
    {
        match self {
            Done::Refuted(_, reason) => Some(Finding::Refuted(reason)),
            Done::Split(_, literal) => Some(Finding::Split(literal)),
            Done::Won(_, finish, lots) => Some(Finding::Won(finish, lots)),
            Done::Undone => None,
        }
    }

    /// What was done is about this piece. `Undone` is about any.
    pub fn is_for(&self, piece: &Piece) -> bool
        ensures { IsTrue result ↔ IsFor self.now piece.now }
    {
        match self {
            Done::Refuted(own, _) => own.equals(piece),
            Done::Split(own, _) => own.equals(piece),
            Done::Won(own, _, _) => own.equals(piece),
            Done::Undone => true,
        }
    }
}
