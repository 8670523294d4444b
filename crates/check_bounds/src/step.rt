//! One literal of a way, and what has to be put back when the way goes back over it.

ghost use Rattle.std.specs.Prelude.{◌≡◌, [], ◌∷◌, ◌++◌, List, length};
ghost use Rattle.league_core.specs.declared.zone.Literal.{Literal};
ghost use Rattle.check_bounds.specs.inside.Zones.{IsTestWithin, CutsBy};
ghost use Rattle.check_bounds.specs.inside.Trails.{undone, IsCutWithin, AreMarks};

use crate::cells::Cells;
use crate::score_domain::ScoreDomain;
use crate::zone::{fixture_of, with_mark};
use league_core::{ClubSet, Literal};

/// A fixture, and the domain that it had before a literal cut it.
#[derive(Clone, Copy)]
pub struct Cut {
    pub fixture: u16,
    pub kept: ScoreDomain,
}

/// The rivals that a zone says to rank before the club, and those that it says not to.
#[derive(Clone, Copy)]
pub struct Marks {
    pub before: ClubSet,
    pub after: ClubSet,
}

/// A literal with what was there before it.
#[derive(Clone, Copy)]
pub struct Step {
    pub literal: Literal,
    pub cut: Option<Cut>,
    pub marks: Marks,
}

impl Marks {
    pub fn none() -> Marks
        ensures { AreMarks result [] }
    {
        Marks {
            before: ClubSet::empty(),
            after: ClubSet::empty(),
        }
    }

    /// Those of the zone with one literal more.
    pub fn with(self, literal: &Literal) -> Marks
        requires { IsTestWithin 600 literal.now.test }
        ensures { (zone : List Literal) → AreMarks self zone
            → AreMarks result (zone ++ literal.now ∷ []) }
    {
        Marks {
            before: with_mark(self.before, literal, true),
            after: with_mark(self.after, literal, false),
        }
    }
}

/// Cuts the domain of the fixture that a literal is of, and hands out what it was; of a literal
/// that is of none, nothing.
pub fn cut_by(cells: &mut Cells, literal: &Literal) -> Option<Cut>
    requires { IsTestWithin (length cells.old.scopes) literal.now.test }
    ensures cut { CutsBy cells.old.scopes cells.new.scopes literal.now }
    ensures within { IsCutWithin (length cells.new.scopes) result }
    ensures back { undone cells.new.scopes result ≡ cells.old.scopes }
    ensures sheet { cells.new.sheet ≡ cells.old.sheet }
{
    match fixture_of(&literal.test) {
        Some(fixture) => {
            let kept = cells.scope(fixture);
            let mut scope = kept;
            scope.cut(literal);
            cells.put(fixture, scope);
            Some(Cut { fixture, kept })
        }
        None => None,
    }
}

/// Puts back what a step kept.
pub fn undo(cells: &mut Cells, cut: Option<Cut>)
    requires { IsCutWithin (length cells.old.scopes) cut }
    ensures scopes { cells.new.scopes ≡ undone cells.old.scopes cut }
    ensures sheet { cells.new.sheet ≡ cells.old.sheet }
{
    if let Some(cut) = cut {
        cells.put(cut.fixture, cut.kept);
    }
}
