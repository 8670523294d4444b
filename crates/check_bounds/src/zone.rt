//! What a zone leaves of each fixture, and the rivals that it marks.

ghost use Rattle.std.specs.Prelude.{◌≡◌, ◌||◌, ◌==◌, ◌<◌, ℕ, false, true, IfOk, IfSome, IfNone};
ghost use Rattle.std.specs.Prelude.{[], Option};
ghost use Rattle.league_core.specs.declared.season.Score.{Score};
ghost use Rattle.league_core.specs.game.Sums.{has_club};
ghost use Rattle.league_core.specs.game.ClubSets.{clubs_in};
ghost use Rattle.league_core.specs.search.Zones.{is_on, is_of_score, is_as_said};
ghost use Rattle.league_core.specs.search.Options.{options_from};
ghost use Rattle.check_bounds.specs.inside.Zones.{AreScoreDomainsOf, IsTestWithin};
ghost use Rattle.check_bounds.specs.inside.Cells.{FitScoreDomains};
ghost use Rattle.check_bounds.specs.inside.Zones.{is_mark};

use crate::extreme_scores::ExtremeScores;
use crate::score_domain::ScoreDomain;
use league_core::{ClubSet, Literal, OutOfMemory, Score, Season, Sheet, Test};
use std::alloc::Global;

/// The domains of a season in which no literal is asked for.
pub fn season_domains(
    alloc: Global,
    scores: &[Option<Score>],
    goal_limit: u8,
) -> Result<Vec<ScoreDomain>, OutOfMemory>
    ensures { IfOk result (λ scopes.
        AreScoreDomainsOf scopes.items (options_from goal_limit [] 0 scores.now)) }
{
    let mut scopes = Vec::new(alloc);
    for score in scores {
        scopes.push(ScoreDomain::of(*score, goal_limit))?;
    }
    Ok(scopes)
}

/// The fixture whose score a test looks at.
pub fn fixture_of(test: &Test) -> Option<u16>
    ensures some { IfSome result (λ fixture. (is_of_score test.now ≡ true)
        × ((number : ℕ) → is_on number test.now ≡ (fixture == number))
        × ((fixtures : ℕ) → IsTestWithin fixtures test.now → fixture < fixtures)) }
    ensures none { IfNone result ((number : ℕ) → is_on number test.now ≡ false) }
{
    match test {
        Test::Home { fixture } => Some(*fixture),
        Test::Draw { fixture } => Some(*fixture),
        Test::HomeMost { fixture, .. } => Some(*fixture),
        Test::AwayMost { fixture, .. } => Some(*fixture),
        Test::Rival { .. } => None,
    }
}

/// The extremes of each domain.
pub fn all_extremes(
    alloc: Global,
    scopes: &[ScoreDomain],
) -> Result<Vec<ExtremeScores>, OutOfMemory>
    ensures { IfOk result (λ corners. FitScoreDomains scopes.now corners.items) }
{
    let mut corners = Vec::new(alloc);
    for scope in scopes {
        corners.push(ExtremeScores::of(scope))?;
    }
    Ok(corners)
}

/// The same lists of extremes once more.
pub fn copied_extremes(
    alloc: Global,
    corners: &[ExtremeScores],
) -> Result<Vec<ExtremeScores>, OutOfMemory>
    ensures { IfOk result (λ copied. copied.items ≡ corners.now) }
{
    let mut copied = Vec::with_capacity(alloc, corners.len())?;
    for own in corners {
        copied.push(own.copied())?;
    }
    Ok(copied)
}

// The answer is as wanted.
fn is_said(answer: bool, wanted: bool) -> bool
    ensures { result ≡ is_as_said wanted answer }
{
    if wanted { answer } else { !answer }
}

/// The set with the rival that a literal marks so, if it marks one.
pub fn with_mark(set: ClubSet, literal: &Literal, yes: bool) -> ClubSet
    requires { IsTestWithin 600 literal.now.test }
    ensures { (club : ℕ) → has_club (clubs_in result) club
        ≡ (has_club (clubs_in set) club || is_mark yes club literal.now) }
{
    match literal.test {
        Test::Home { .. } => set,
        Test::Draw { .. } => set,
        Test::HomeMost { .. } => set,
        Test::AwayMost { .. } => set,
        Test::Rival { club } => set.with_if(is_said(literal.yes, yes), club),
    }
}
