//! The rivals asked on the way to a part of a saved tree, and the splits that may come there.

ghost use Rattle.std.specs.Prelude.{◌≡◌, ◌<◌, ℕ, IsTrue};
ghost use Rattle.league_core.specs.game.ClubSets.{clubs_in};
ghost use Rattle.league_core.specs.search.Zones.{is_of_rival};
ghost use Rattle.pool_save.specs.SavedReadings.{asks_one_of, may_split, with_rival};

use league_core::{ClubSet, Question, Sheet, Test};
use line_tokens::is_test_for;

/// A split by the test may come where these rivals were asked.
pub fn may_split(sheet: &Sheet, question: &Question, rivals: ClubSet, test: Test) -> bool
    ensures { result ≡ may_split sheet.now question.now (clubs_in rivals) test }
{
    is_test_for(sheet, question, test) && !asks_one_of(rivals, test)
}

fn asks_one_of(rivals: ClubSet, test: Test) -> bool
    ensures { result ≡ asks_one_of (clubs_in rivals) test }
{
    match test {
        Test::Rival { club } => rivals.has(club),
        _ => false,
    }
}

/// The rivals with that of the test.
pub fn with_rival(rivals: ClubSet, test: Test) -> ClubSet
    requires small { (club : ℕ) → IsTrue (is_of_rival club test) → club < 32 }
    ensures { clubs_in result ≡ with_rival (clubs_in rivals) test }
{
    match test {
        Test::Rival { club } => rivals.with_if(true, club),
        Test::Home { .. } => rivals,
        Test::Draw { .. } => rivals,
        Test::HomeMost { .. } => rivals,
        Test::AwayMost { .. } => rivals,
    }
}
