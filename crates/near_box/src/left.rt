//! What a box leaves of each match, in the words of the test.

ghost use Rattle.std.specs.Prelude.{◌≡◌, Bool, ◌||◌, [], ◌∷◌};
ghost use Rattle.league_core.specs.declared.season.Score.{Score};
ghost use Rattle.score_box.specs.declared.cell.Cell.{Cell};
ghost use Rattle.score_box.specs.inside.Cells.{IsScoreRangeOf};
ghost use Rattle.near_bound.specs.inside.MatchesLeft.{IsLeftOf};
ghost use Rattle.near_box.specs.inside.CellMatches.{IsLeftOfCell, IsRangeIfAny};

use league_core::Score;
use near_bound::MatchLeft;
use score_box::{Cell, ScoreRange};

/// No score.
pub const NOTHING: MatchLeft = MatchLeft {
    home_win: false,
    draw: false,
    away_win: false,
    home_least: 1,
    home_most: 0,
    away_least: 1,
    away_most: 0,
};

/// One score alone.
pub fn only_score(score: Score) -> MatchLeft
    ensures { IsLeftOf result (score ∷ []) }
{
    MatchLeft {
        home_win: true,
        draw: true,
        away_win: true,
        home_least: score.home,
        home_most: score.home,
        away_least: score.away,
        away_most: score.away,
    }
}

/// The same scores in other words. Each end of the goals is that of a score which is left, so that
/// no goals in between are outside the cell.
pub fn match_left(cell: &Cell) -> MatchLeft
    ensures { IsLeftOfCell result cell.now }
{
    let home_wins = cell.home_wins();
    let draws = cell.draws();
    let away_wins = cell.away_wins();
    match either(either(home_wins, draws), away_wins) {
        Some(goals) => MatchLeft {
            home_win: home_wins.is_some(),
            draw: draws.is_some(),
            away_win: away_wins.is_some(),
            home_least: goals.home_least,
            home_most: goals.home_most,
            away_least: goals.away_least,
            away_most: goals.away_most,
        },
        None => NOTHING,
    }
}

// The goals of the scores of one kind or of another.
fn either(first: Option<ScoreRange>, second: Option<ScoreRange>) -> Option<ScoreRange>
    ensures { (cell : Cell) (one other : Score → Bool) → IsRangeIfAny cell one first
        → IsRangeIfAny cell other second
        → IsRangeIfAny cell (λ score. one score || other score) result }
{
    match first {
        None => second,
        Some(goals) => match second {
            None => Some(goals),
            Some(more) => Some(around(goals, more)),
        },
    }
}

fn around(goals: ScoreRange, more: ScoreRange) -> ScoreRange
    ensures { (cell : Cell) (one other : Score → Bool) → IsScoreRangeOf cell one goals
        → IsScoreRangeOf cell other more
        → IsScoreRangeOf cell (λ score. one score || other score) result }
{
    ScoreRange {
        home_least: goals.home_least.min(more.home_least),
        home_most: goals.home_most.max(more.home_most),
        away_least: goals.away_least.min(more.away_least),
        away_most: goals.away_most.max(more.away_most),
    }
}
