//! Whether a season makes the literals of a base true.

ghost use Rattle.std.specs.Prelude.{◌≡◌, ℕ, IsTrue, List, None, slice_index_or};
ghost use Rattle.league_core.specs.declared.sheet.Sheet.{Sheet};
ghost use Rattle.league_core.specs.search.Zones.{are_literals_true, has_passed, is_literal_true};
ghost use Rattle.league_core.specs.search.Zones.{is_as_said, passes};

use league_core::{Literal, Score, Season, Test};

/// Each literal asks something of a score, and is true, whatever the lots. A literal on a rival is
/// not looked at: it counts as false.
pub(crate) fn are_true(literals: &[Literal], season: &Season) -> bool
    ensures { IsTrue result → (sheet : Sheet) (club : ℕ) (lots : List ℕ)
        → IsTrue (are_literals_true sheet club season.now lots literals.now) }
{
    for literal in literals {
        if !is_true(*literal, season) {
            return false;
        }
    }
    true
}

fn is_true(literal: Literal, season: &Season) -> bool
    ensures { IsTrue result → (sheet : Sheet) (club : ℕ) (lots : List ℕ)
        → IsTrue (is_literal_true sheet club season.now lots literal) }
{
    let Literal { test, yes } = literal;
    match test {
        Test::Home { fixture } => is_said(yes, has_passed(test, score_at(season, fixture))),
        Test::Draw { fixture } => is_said(yes, has_passed(test, score_at(season, fixture))),
        Test::HomeMost { fixture, .. } => is_said(yes, has_passed(test, score_at(season, fixture))),
        Test::AwayMost { fixture, .. } => is_said(yes, has_passed(test, score_at(season, fixture))),
        Test::Rival { .. } => false,
    }
}

fn is_said(yes: bool, passed: bool) -> bool
    ensures { result ≡ is_as_said yes passed }
{
    if yes { passed } else { !passed }
}

// The score of a fixture, if there is such a fixture and it has one.
fn score_at(season: &Season, fixture: u16) -> Option<Score>
    ensures { result ≡ slice_index_or season.now.scores fixture None }
{
    if (fixture as usize) < season.scores().len() {
        season.score(fixture)
    } else {
        None
    }
}

fn has_passed(test: Test, score: Option<Score>) -> bool
    ensures { result ≡ has_passed test score }
{
    match score {
        Some(score) => passes(test, score),
        None => false,
    }
}

fn passes(test: Test, score: Score) -> bool
    ensures { result ≡ passes test score }
{
    match test {
        Test::Home { .. } => score.away < score.home,
        Test::Draw { .. } => score.home == score.away,
        Test::HomeMost { most, .. } => score.home <= most,
        Test::AwayMost { most, .. } => score.away <= most,
        Test::Rival { .. } => true,
    }
}
