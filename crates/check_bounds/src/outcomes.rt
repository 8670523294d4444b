//! Whether a fixture has a score left, and whether its scores have one outcome.

ghost use Rattle.std.specs.Prelude.{◌≡◌, ◌&&◌, ◌<◌};
ghost use Rattle.std.specs.Prelude.{◌||◌};
ghost use Rattle.std.specs.List.{list_all};
ghost use Rattle.league_core.specs.search.Options as options;
ghost use Rattle.league_core.specs.search.Options.{has_option, has_one_outcome};

use crate::extreme_scores::ExtremeScores;
use league_core::Score;

/// The fixture has a score left.
pub fn has_score(corners: &ExtremeScores) -> bool
    ensures { result ≡ has_option corners.now }
{
    !corners.as_slice().is_empty()
}

/// All of its scores have one outcome.
pub fn is_one_outcome(scores: &[Score]) -> bool
    ensures { result ≡ has_one_outcome scores.now }
{
    if scores.is_empty() {
        return true;
    }
    are_like(scores[0], &scores[1..])
}

// Each of the scores has the outcome of the first.
fn are_like(first: Score, scores: &[Score]) -> bool
    ensures { result ≡ list_all (options.same_outcome first) scores.now }
{
    for score in scores {
        if !same_outcome(first, *score) {
            return false;
        }
    }
    true
}

fn same_outcome(first: Score, second: Score) -> bool
    ensures { result ≡ options.same_outcome first second }
{
    (first.home > first.away && second.home > second.away)
        || (first.home == first.away && second.home == second.away)
        || (first.home < first.away && second.home < second.away)
}
