//! A walk over whole finishes in search of an example.

ghost use Rattle.std.specs.Prelude.{◌<◌, IfOk, IfSome, length};
ghost use Rattle.league_core.specs.game.Seasons.{IsLeague};
ghost use Rattle.league_core.specs.game.Questions.{IsExample};
ghost use Rattle.league_core.specs.game.Finishes.{IsFinishOf};

use crate::board::Board;
use crate::start::Start;
use crate::trials::Trials;
use example_finish::try_example;
use league_core::{Finish, Lots, OutOfMemory, Question, Season, Sheet};
use std::alloc::Global;

/// An example of the question in the season, where so many trials come to one: a finish, and lots
/// with which the question holds there. The same for the same sheet, season, question and number of
/// trials. None says nothing: there may be examples.
pub fn walk(
    alloc: Global,
    sheet: &Sheet,
    season: &Season,
    question: &Question,
    trials: u32,
) -> Result<Option<(Finish, Lots)>, OutOfMemory>
    requires league { IsLeague sheet.now season.now }
    requires in_range { question.now.club < length sheet.now.clubs }
    ensures { IfOk result (λ found. IfSome found (λ example.
        IsExample sheet.now season.now question.now example.0 example.1)) }
{
    let board = Board::of(alloc, sheet, season)?;
    walk_on(alloc, sheet, season, question, board, trials)
}

/// The same, where the board of the season is there: all that is played, and 0:0 elsewhere.
pub fn walk_on(
    alloc: Global,
    sheet: &Sheet,
    season: &Season,
    question: &Question,
    board: Board,
    trials: u32,
) -> Result<Option<(Finish, Lots)>, OutOfMemory>
    requires league { IsLeague sheet.now season.now }
    requires in_range { question.now.club < length sheet.now.clubs }
    ensures { IfOk result (λ found. IfSome found (λ example.
        IsExample sheet.now season.now question.now example.0 example.1)) }
{
    let mut begun = board;
    let clubs = sheet.clubs.len() as u8;
    Start::of(&begun, question, clubs, sheet.goal_limit).set(&mut begun);
    match ended(alloc, sheet, season, question, begun, trials)? {
        Some(ended) => example_of(alloc, sheet, season, question, ended),
        None => Ok(None),
    }
}

/// The same, by a walk that begins where a finish ends: the scores of the season stay, and each
/// open match has that of the finish first.
pub fn walk_from(
    alloc: Global,
    sheet: &Sheet,
    season: &Season,
    question: &Question,
    from: &Finish,
    trials: u32,
) -> Result<Option<(Finish, Lots)>, OutOfMemory>
    requires league { IsLeague sheet.now season.now }
    requires in_range { question.now.club < length sheet.now.clubs }
    ensures { IfOk result (λ found. IfSome found (λ example.
        IsExample sheet.now season.now question.now example.0 example.1)) }
{
    let mut board = Board::of(alloc, sheet, season)?;
    board.put_all(from.as_season().scores());
    match ended(alloc, sheet, season, question, board, trials)? {
        Some(ended) => example_of(alloc, sheet, season, question, ended),
        None => Ok(None),
    }
}

// The season as it ends where a walk that begins at the board finds nothing missing.
fn ended(
    alloc: Global,
    sheet: &Sheet,
    season: &Season,
    question: &Question,
    board: Board,
    trials: u32,
) -> Result<Option<Season>, OutOfMemory>
    requires { IsLeague sheet.now season.now }
{
    let clubs = sheet.clubs.len() as u8;
    let mut walk = Trials::begin(alloc, sheet, question, board, clubs)?;
    if walk.run(trials) {
        Ok(Some(walk.board().ended(alloc, season)?))
    } else {
        Ok(None)
    }
}

// The ended season with lots, where it is a finish of the season at which the question holds.
fn example_of(
    alloc: Global,
    sheet: &Sheet,
    season: &Season,
    question: &Question,
    ended: Season,
) -> Result<Option<(Finish, Lots)>, OutOfMemory>
    requires league { IsLeague sheet.now season.now }
    requires in_range { question.now.club < length sheet.now.clubs }
    ensures { IfOk result (λ found. IfSome found (λ example.
        IsExample sheet.now season.now question.now example.0 example.1)) }
{
    let Ok(finish) = Finish::of_season(ended) else {
        return Ok(None);
    };
    if !finish.is_of(sheet, season) {
        return Ok(None);
    }
    with_lots(alloc, sheet, season, question, finish)
}

// A finish of the season with lots, where the question holds with them.
fn with_lots(
    alloc: Global,
    sheet: &Sheet,
    season: &Season,
    question: &Question,
    finish: Finish,
) -> Result<Option<(Finish, Lots)>, OutOfMemory>
    requires league { IsLeague sheet.now season.now }
    requires in_range { question.now.club < length sheet.now.clubs }
    requires is_finish { IsFinishOf sheet.now season.now finish }
    ensures { IfOk result (λ found. IfSome found (λ example.
        IsExample sheet.now season.now question.now example.0 example.1)) }
{
    match try_example(alloc, sheet, question, &finish)? {
        Some(lots) => Ok(Some((finish, lots))),
        None => Ok(None),
    }
}
