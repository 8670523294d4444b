//! The first scores of a cell, outcome by outcome: the least draw, and of wins the one with few
//! goals, with a wide margin or with a narrow one.

ghost use Rattle.std.specs.Prelude.{Bool, true, false};
ghost use Rattle.league_core.specs.search.Options.{is_home_win, is_draw, is_away_win};
ghost use Rattle.example_finish.specs.inside.Firsts.{IsFirstAmong};

use league_core::Score;
use score_box::Cell;

/// The draw with the fewest goals, which is the first of the draws whatever the sides are wished.
pub fn least_draw(cell: &Cell) -> Option<Score>
    ensures { (home away : Bool) → IsFirstAmong cell.now is_draw home away result }
{
    let goals = cell.draws()?;
    Some(Score {
        home: goals.home_least,
        away: goals.away_least,
    })
}

/// The first of the home wins if both sides are wished points, or neither is.
pub fn small_home_win(cell: &Cell) -> Option<Score>
    ensures { (wish : Bool) → IsFirstAmong cell.now is_home_win wish wish result }
{
    let goals = cell.home_wins()?;
    Some(Score {
        home: goals.home_least,
        away: goals.away_least,
    })
}

/// The first of the home wins if the home side alone is wished points.
pub fn wide_home_win(cell: &Cell) -> Option<Score>
    ensures { IsFirstAmong cell.now is_home_win true false result }
{
    let goals = cell.home_wins()?;
    Some(Score {
        home: goals.home_most,
        away: goals.away_least,
    })
}

/// The first of the home wins if the away side alone is wished points.
pub fn narrow_home_win(cell: &Cell) -> Option<Score>
    ensures { IsFirstAmong cell.now is_home_win false true result }
{
    let goals = cell.home_wins()?;
    Some(Score {
        home: goals.home_least,
        away: goals.away_most.min(goals.home_least - 1),
    })
}

/// The first of the away wins if both sides are wished points, or neither is.
pub fn small_away_win(cell: &Cell) -> Option<Score>
    ensures { (wish : Bool) → IsFirstAmong cell.now is_away_win wish wish result }
{
    let goals = cell.away_wins()?;
    Some(Score {
        home: goals.home_least,
        away: goals.away_least,
    })
}

/// The first of the away wins if the away side alone is wished points.
pub fn wide_away_win(cell: &Cell) -> Option<Score>
    ensures { IsFirstAmong cell.now is_away_win false true result }
{
    let goals = cell.away_wins()?;
    Some(Score {
        home: goals.home_least,
        away: goals.away_most,
    })
}

/// The first of the away wins if the home side alone is wished points.
pub fn narrow_away_win(cell: &Cell) -> Option<Score>
    ensures { IsFirstAmong cell.now is_away_win true false result }
{
    let goals = cell.away_wins()?;
    Some(Score {
        home: goals.home_most.min(goals.away_least - 1),
        away: goals.away_least,
    })
}
