//! A box along a path: one literal more at the end of its zone, and the last one taken back. Each
//! takes the steps of one cell, however long the zone.

ghost use Rattle.std.specs.Prelude.{◌≡◌, ◌≢◌, ◌≤◌, ◌++◌, ℕ, true, IsTrue, OnOk, OnErr, [], ◌∷◌};
ghost use Rattle.std.specs.Prelude.{length};
ghost use Rattle.std.specs.List.{All};
ghost use Rattle.league_core.specs.game.Limits.{most_fixtures, set_width};
ghost use Rattle.league_core.specs.search.Zones.{is_on, is_test_of, is_zone_of};
ghost use Rattle.score_box.specs.inside.Cells.{IsExactCell};
ghost use Rattle.score_box.specs.inside.Boxes.{IsTestBelow};
ghost use Rattle.score_box.specs.inside.Ends.{HasEndsOfCells, IsMatch};
ghost use Rattle.score_box.specs.inside.PlayedViews.{TakesOneMore, TakesOneLess};

use super::ZoneBox;
use crate::cell::Cell;
use crate::ends::{Ends, replace};
use crate::season_cells::fixture_of;
use crate::trail::{Undo, cell_on, push_both};
use league_core::{Fixture, Literal, OutOfMemory};

impl<'a> ZoneBox<'a> {
    /// Puts a literal at the end of the zone. After a refusal the box is as before.
    pub fn cut(&mut self, literal: Literal) -> Result<(), OutOfMemory>
        requires { IsTrue (is_test_of self.old.sheet literal.test) }
        ensures ok { OnOk result
            (self.new ≡ record self.old { zone = self.old.zone ++ literal ∷ [] }) }
        ensures err { OnErr result (self.new ≡ self.old) }
    {
        let undo = Undo {
            cell: cell_on(&self.cells, &literal),
            marks: self.marks,
        };
        push_both(&mut self.zone, &mut self.trail, literal, undo)?;
        let fixtures = self.sheet.fixtures.as_slice();
        take_one(&mut self.cells, &mut self.ends, fixtures, &literal);
        self.marks = self.marks.with(&literal);
        Ok(())
    }

    /// Puts these literals at the end of the zone, one after the other.
    pub(crate) fn cut_all(&mut self, literals: &[Literal]) -> Result<(), OutOfMemory>
        requires { IsTrue (is_zone_of self.old.sheet literals.now) }
        ensures { OnOk result
            (self.new ≡ record self.old { zone = self.old.zone ++ literals.now }) }
    {
        for literal in literals {
            self.cut(*literal)?;
        }
        Ok(())
    }

    /// Takes the last literal off the zone, which must have one, and returns it. It takes no
    /// memory.
    pub fn uncut(&mut self) -> Literal
        requires { self.old.zone ≢ [] }
        ensures zone { self.old.zone ≡ self.new.zone ++ result ∷ [] }
        ensures same { self.new ≡ record self.old { zone = self.new.zone } }
    {
        let literal = self.zone.pop().unwrap();
        let undo = self.trail.pop().unwrap();
        let fixtures = self.sheet.fixtures.as_slice();
        give_back(
            &mut self.cells,
            &mut self.ends,
            fixtures,
            &literal,
            undo.cell,
        );
        self.marks = undo.marks;
        literal
    }
}

// Cuts the cell of the fixture that a literal is of, if it is of one, and moves the ends.
fn take_one(cells: &mut [Cell], ends: &mut Ends, fixtures: &[Fixture], literal: &Literal)
    requires in_range { IsTestBelow (length cells.old) set_width literal.now.test }
    requires many { length fixtures.now ≡ length cells.old }
    requires few { length fixtures.now ≤ most_fixtures }
    requires matches { All IsMatch fixtures.now }
    requires ends { HasEndsOfCells fixtures.now cells.old ends.old }
    ensures { TakesOneMore fixtures.now cells.old cells.new ends.old ends.new literal.now }
{
    match fixture_of(&literal.test) {
        Some(fixture) => {
            let mut cell = cells[fixture as usize];
            cell.cut_exact(literal);
            replace(cells, ends, fixtures, fixture, cell);
        }
        None => {}
    }
}

// Gives the fixture that the last literal is on, if it is on one, the cell from before it.
fn give_back(cells: &mut [Cell], ends: &mut Ends, fixtures: &[Fixture], last: &Literal, cell: Cell)
    requires in_range { IsTestBelow (length cells.old) set_width last.now.test }
    requires many { length fixtures.now ≡ length cells.old }
    requires few { length fixtures.now ≤ most_fixtures }
    requires matches { All IsMatch fixtures.now }
    requires ends { HasEndsOfCells fixtures.now cells.old ends.old }
    requires exact { (number : ℕ) → is_on number last.now.test ≡ true → IsExactCell cell }
    ensures { TakesOneLess fixtures.now cells.old cells.new ends.old ends.new last.now cell }
{
    match fixture_of(&last.test) {
        Some(fixture) => replace(cells, ends, fixtures, fixture, cell),
        None => {}
    }
}
