//! What there is to work on.

ghost use Rattle.std.specs.Prelude.{◌≡◌, ◌↔◌, IfOk, IsTrue};

use league_core::{Literal, OutOfMemory, Question, Season, Zone};
use std::alloc::Global;

/// A part of a season, and a question about it.
#[derive(Drop)]
pub struct Piece {
    pub season: Season,
    pub question: Question,
    pub zone: Zone,
}

impl Piece {
    /// The same season, question and zone once more.
    pub fn copy(&self, alloc: Global) -> Result<Piece, OutOfMemory>
        ensures { IfOk result (λ copy. copy ≡ self.now) }
    {
        let season = self.season.copy(alloc)?;
        let literals = self.zone.literals.copy(alloc)?;
        Ok(Piece {
            season,
            question: self.question,
            zone: Zone { literals },
        })
    }

    /// Both are of the same season, question and zone.
    pub fn equals(&self, other: &Piece) -> bool
        ensures { IsTrue result ↔ (self.now ≡ other.now) }
    {
        self.question == other.question
            && same_literals(
                self.zone.literals.as_slice(),
                other.zone.literals.as_slice(),
            )
            && self.season.equals(&other.season)
    }
}

fn same_literals(literals: &[Literal], others: &[Literal]) -> bool
    ensures { IsTrue result ↔ (literals.now ≡ others.now) }
{
    literals == others
}
