//! Which halves of a split have a finish.

ghost use Rattle.std.specs.Prelude.{◌≡◌, ◌&&◌, true, false, IsTrue, List, length, [], ◌∷◌, ◌++◌};
ghost use Rattle.std.specs.List.{All};
ghost use Rattle.league_core.specs.game.Limits.{set_width};
ghost use Rattle.league_core.specs.game.Results.{Results};
ghost use Rattle.league_core.specs.declared.sheet.Sheet.{Sheet};
ghost use Rattle.league_core.specs.declared.zone.Literal.{Literal};
ghost use Rattle.league_core.specs.search.Options.{has_finish, options_in};
ghost use Rattle.league_core.specs.search.Zones.{is_test_of, with_test};
ghost use Rattle.score_box.specs.inside.Cells.{IsExactCell};
ghost use Rattle.score_box.specs.inside.Boxes.{AreCellsOf, IsTestBelow};
ghost use Rattle.score_box.specs.inside.ZoneBoxViews.{AreHalvesLeft};

use super::ZoneBox;
use crate::cell::Cell;
use crate::season_cells::fixture_of;
use league_core::{Literal, Test};

/// Whether the half of a zone where a test is true has a finish, and whether the other has one.
#[derive(Clone, Copy, Debug, PartialEq, Eq)]
pub struct HalvesWithFinish {
    pub yes: bool,
    pub no: bool,
}

impl HalvesWithFinish {
    const NEITHER: HalvesWithFinish = HalvesWithFinish {
        yes: false,
        no: false,
    };
}

impl<'a> ZoneBox<'a> {
    /// Which halves of a split by the test would have a finish, if the zone is split. It takes no
    /// memory.
    pub fn halves_with_finish(&self, test: Test) -> HalvesWithFinish
        requires { IsTrue (is_test_of self.now.sheet test) }
        ensures yes { result.yes
            ≡ has_finish self.now.sheet self.now.season (with_test self.now.zone test true) }
        ensures no { result.no
            ≡ has_finish self.now.sheet self.now.season (with_test self.now.zone test false) }
    {
        let left = halves_left(&self.cells, test);
        if self.ends.empty == 0 {
            left
        } else {
            HalvesWithFinish::NEITHER
        }
    }
}

// For each literal of a test: the fixture that it is of, if it is of one, has a score left where
// the literal is true. Tests of outcomes have arms of their own, so that the compiler works out
// both looks at once.
fn halves_left(cells: &[Cell], test: Test) -> HalvesWithFinish
    requires in_range { IsTestBelow (length cells.now) set_width test }
    requires exact { All IsExactCell cells.now }
    ensures { (sheet : Sheet) (season : Results) (zone : List Literal)
        → AreCellsOf cells.now (options_in sheet season zone)
        → AreHalvesLeft sheet season zone test result }
{
    match test {
        Test::Home { fixture } => both_left(cells, Test::Home { fixture }),
        Test::Draw { fixture } => both_left(cells, Test::Draw { fixture }),
        _ => both_left(cells, test),
    }
}

#[inline(always)]
fn both_left(cells: &[Cell], test: Test) -> HalvesWithFinish
    requires in_range { IsTestBelow (length cells.now) set_width test }
    requires exact { All IsExactCell cells.now }
    ensures { (sheet : Sheet) (season : Results) (zone : List Literal)
        → AreCellsOf cells.now (options_in sheet season zone)
        → AreHalvesLeft sheet season zone test result }
{
    HalvesWithFinish {
        yes: leaves_score(cells, &Literal { test, yes: true }),
        no: leaves_score(cells, &Literal { test, yes: false }),
    }
}

// The fixture that a literal is of, if it is of one, has a score left where the literal is true.
#[inline(always)]
fn leaves_score(cells: &[Cell], literal: &Literal) -> bool
    requires in_range { IsTestBelow (length cells.now) set_width literal.now.test }
    requires exact { All IsExactCell cells.now }
    ensures { (sheet : Sheet) (season : Results) (zone : List Literal)
        → AreCellsOf cells.now (options_in sheet season zone)
        → (has_finish sheet season zone && result)
        ≡ has_finish sheet season (zone ++ literal.now ∷ []) }
{
    match fixture_of(&literal.test) {
        Some(fixture) => {
            let mut cell = cells[fixture as usize];
            cell.cut_exact(literal);
            !cell.left().are_none()
        }
        None => true,
    }
}
