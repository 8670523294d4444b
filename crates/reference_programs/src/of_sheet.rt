//! Whether the tests of a tree are of a sheet's fixtures and clubs.

ghost use Rattle.std.specs.Prelude.{◌≡◌, ◌↔◌, IsTrue};
ghost use Rattle.league_core.specs.search.Zones.{is_test_of};
ghost use Rattle.tree_arena.specs.inside.Calls.{AreTestsOf};
ghost use Rattle.reference_programs.specs.inside.Boxed.{HasTestsOf};

use crate::boxed::{BoxedTree, Node};
use league_core::{Sheet, Test};

impl BoxedTree {
    /// Each test is of a fixture or a club of the sheet.
    pub fn has_tests_of(&self, sheet: &Sheet) -> bool
        ensures { IsTrue result ↔ AreTestsOf sheet.now self.now }
    {
        self.has_splits_of(sheet)
    }

    fn has_splits_of(&self, sheet: &Sheet) -> bool
        ensures { IsTrue result ↔ HasTestsOf sheet.now self.now }
    {
        match &self.node {
            Node::Open | Node::Lent(..) | Node::Refuted(..) => true,
            Node::Split(test, _, yes_half, no_half) => {
                is_test_of(sheet, test)
                    && yes_half.has_splits_of(sheet)
                    && no_half.has_splits_of(sheet)
            }
        }
    }
}

fn is_test_of(sheet: &Sheet, test: &Test) -> bool
    ensures { result ≡ is_test_of sheet.now test.now }
{
    match test {
        Test::Home { fixture }
        | Test::Draw { fixture }
        | Test::HomeMost { fixture, .. }
        | Test::AwayMost { fixture, .. } => (*fixture as usize) < sheet.fixtures.len(),
        Test::Rival { club } => (*club as usize) < sheet.clubs.len(),
    }
}
