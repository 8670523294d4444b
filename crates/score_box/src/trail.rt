//! What a box had before each literal of its zone, so that the last one is taken back at once.

ghost use Rattle.std.specs.Prelude.{◌≡◌, ◌<◌, ◌++◌, ℕ, true, OnOk, OnErr, [], ◌∷◌, length};
ghost use Rattle.std.specs.Prelude.{slice_index_or};
ghost use Rattle.league_core.specs.game.Limits.{set_width};
ghost use Rattle.league_core.specs.search.Zones.{is_on};
ghost use Rattle.score_box.specs.inside.Boxes.{IsTestBelow};

use crate::cell::Cell;
use crate::marks::Marks;
use crate::season_cells::fixture_of;
use league_core::{Literal, OutOfMemory};

/// What stood before a literal: the cell of the fixture that it is on, and the marks.
#[derive(Clone, Copy)]
pub struct Undo {
    pub cell: Cell,
    pub marks: Marks,
}

/// The cell of the fixture that a literal is on; any cell if it is on none.
pub fn cell_on(cells: &[Cell], literal: &Literal) -> Cell
    requires { IsTestBelow (length cells.now) set_width literal.now.test }
    ensures { (number : ℕ) (d : Cell) → is_on number literal.now.test ≡ true
        → result ≡ slice_index_or cells.now number d }
{
    match fixture_of(&literal.test) {
        Some(fixture) => cells[fixture as usize],
        None => Cell::none(),
    }
}

/// Puts a literal at the end of the zone, and what stood before it at the end of the trail.
pub fn push_both(
    zone: &mut Vec<Literal>,
    trail: &mut Vec<Undo>,
    literal: Literal,
    undo: Undo,
) -> Result<(), OutOfMemory>
    ensures zone { OnOk result (zone.new.items ≡ zone.old.items ++ literal ∷ []) }
    ensures trail { OnOk result (trail.new.items ≡ trail.old.items ++ undo ∷ []) }
    ensures zone_err { OnErr result (zone.new.items ≡ zone.old.items) }
    ensures trail_err { OnErr result (trail.new.items ≡ trail.old.items) }
{
    zone.push(literal)?;
    if trail.push(undo).is_err() {
        zone.pop();
        return Err(OutOfMemory);
    }
    Ok(())
}
