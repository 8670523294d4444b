//! The option that a fixture takes, for what its two sides are wished.

ghost use Rattle.std.specs.Prelude.{◌≡◌, ◌+◌, Bool, true, false, List};
ghost use Rattle.score_box.specs.declared.cell.Cell.{Cell};
ghost use Rattle.league_core.specs.declared.season.Score.{Score};
ghost use Rattle.league_core.specs.search.Options.{is_home_win, is_away_win};
ghost use Rattle.league_core.specs.search.Proposals.{first_option};
ghost use Rattle.score_box.specs.inside.Cells.{IsCellOf};
ghost use Rattle.example_finish.specs.inside.Firsts.{IsFirstAmong, is_any, is_win, is_no_home_win};
ghost use Rattle.example_finish.specs.inside.Firsts.{is_no_away_win, IsFirstScore};

use crate::wins::{
    least_draw, narrow_away_win, narrow_home_win, small_away_win, small_home_win, wide_away_win,
    wide_home_win,
};
use league_core::Score;
use score_box::Cell;

/// The first of the scores that the cell has left; none if it has none. `home` and `away` say which
/// side is wished points, and the first score is by them: by points, then by margins, then by few
/// goals, then by many of them at home. At most three scores are looked at.
pub fn first_option(cell: &Cell, home: bool, away: bool) -> Option<Score>
    ensures { (options : List Score) → IsCellOf cell.now options
        → result ≡ first_option home away options }
{
    match (home, away) {
        (true, true) => win_or_draw(cell),
        (true, false) => home_win_or_other(cell),
        (false, true) => away_win_or_other(cell),
        (false, false) => draw_or_win(cell),
    }
}

fn win_or_draw(cell: &Cell) -> Option<Score>
    ensures { IsFirstAmong cell.now is_any true true result }
{
    match small_win(cell) {
        Some(score) => Some(score),
        None => least_draw(cell),
    }
}

fn draw_or_win(cell: &Cell) -> Option<Score>
    ensures { IsFirstAmong cell.now is_any false false result }
{
    match least_draw(cell) {
        Some(score) => Some(score),
        None => small_win(cell),
    }
}

fn home_win_or_other(cell: &Cell) -> Option<Score>
    ensures { IsFirstAmong cell.now is_any true false result }
{
    match wide_home_win(cell) {
        Some(score) => Some(score),
        None => draw_or_away_win(cell),
    }
}

fn draw_or_away_win(cell: &Cell) -> Option<Score>
    ensures { IsFirstAmong cell.now is_no_home_win true false result }
{
    match least_draw(cell) {
        Some(score) => Some(score),
        None => narrow_away_win(cell),
    }
}

fn away_win_or_other(cell: &Cell) -> Option<Score>
    ensures { IsFirstAmong cell.now is_any false true result }
{
    match wide_away_win(cell) {
        Some(score) => Some(score),
        None => draw_or_home_win(cell),
    }
}

fn draw_or_home_win(cell: &Cell) -> Option<Score>
    ensures { IsFirstAmong cell.now is_no_away_win false true result }
{
    match least_draw(cell) {
        Some(score) => Some(score),
        None => narrow_home_win(cell),
    }
}

fn small_win(cell: &Cell) -> Option<Score>
    ensures { (wish : Bool) → IsFirstAmong cell.now is_win wish wish result }
{
    match (small_home_win(cell), small_away_win(cell)) {
        (Some(home), Some(away)) => Some(fewer_goals(home, away)),
        (Some(home), None) => Some(home),
        (None, away) => away,
    }
}

// The win with fewer goals; of two with as many, the one with more of them at home.
fn fewer_goals(home: Score, away: Score) -> Score
    ensures { (cell : Cell) (wish : Bool)
        → IsFirstScore cell is_home_win wish wish home
        → IsFirstScore cell is_away_win wish wish away
        → IsFirstScore cell is_win wish wish result }
{
    if goals_of(away) < goals_of(home) {
        away
    } else {
        home
    }
}

fn goals_of(score: Score) -> u16
    ensures { result ≡ score.home + score.away }
{
    u16::from(score.home) + u16::from(score.away)
}
