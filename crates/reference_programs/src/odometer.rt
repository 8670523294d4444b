//! The finishes of a season one after the other, as an odometer turns.
//!
//! Each open fixture is a wheel whose marks are its scores, from 0:0 to the goal limit on both
//! sides, the away side before the home side. The wheel of the first open fixture turns at each
//! step, and a wheel that comes round turns the next one by a mark. Two open fixtures with goal
//! limit 1:
//!
//!     0:0 0:0   0:1 0:0   1:0 0:0   1:1 0:0   0:0 0:1   ..   1:1 1:1
//!
//! So each finish comes at its number in the list of all.

ghost use Rattle.std.specs.Prelude.{◌≡◌, ◌+◌, ◌<◌, ◌≤◌, length, if◌then◌else◌};
ghost use Rattle.std.specs.Prelude.{IsTrue, IfOk, Some, None, false};
ghost use Rattle.league_core.specs.game.Sheets.{IsWithinLimits};
ghost use Rattle.league_core.specs.game.Seasons.{IsLeague};
ghost use Rattle.league_core.specs.game.Finishes.{may_end, IsFinishOf};
ghost use Rattle.league_core.specs.inside.FinishList.{ways_to_end, end_number};
ghost use Rattle.reference_programs.specs.inside.Walks.{IsNumbered, GoesOn, Turns, with_start};

use league_core::{Event, OutOfMemory, Score, Season, Sheet};
use std::alloc::Global;

/// The first finish, in which each open fixture ends 0:0.
pub fn first_finish(alloc: Global, sheet: &Sheet, season: &Season) -> Result<Season, OutOfMemory>
    requires league { IsLeague sheet.now season.now }
    ensures { IfOk result (λ finish. IsNumbered sheet.now season.now 0 finish) }
{
    let mut finish = season.copy(alloc)?;
    for fixture in 0..sheet.fixtures.len() as u16 {
        start(season, &mut finish, fixture);
    }
    Ok(finish)
}

// Ends the fixture 0:0 if the season has no score for it.
fn start(season: &Season, finish: &mut Season, fixture: u16)
    requires in_range { fixture < length season.now.scores }
    requires in_finish { fixture < length finish.old.scores }
    ensures { finish.new ≡ with_start season.now fixture finish.old }
{
    if season.score(fixture).is_none() {
        let score = Score { home: 0, away: 0 };
        finish.apply(&Event::Set { fixture, score });
    }
}

/// The next finish in place of this one. After the last the first comes again, and the answer is
/// false.
pub fn next_finish(sheet: &Sheet, season: &Season, finish: &mut Season) -> bool
    requires league { IsLeague sheet.now season.now }
    requires is_finish { IsFinishOf sheet.now season.now finish.old }
    ensures is_finish { IsFinishOf sheet.now season.now finish.new }
    ensures number { GoesOn sheet.now season.now finish.old finish.new result }
{
    for fixture in 0..sheet.fixtures.len() as u16 {
        if !turn(sheet, season, finish, fixture) {
            return true;
        }
    }
    false
}

// Turns the wheel of a fixture by one mark. The answer is true if it has come round, as that of a
// played fixture does, which has one mark.
fn turn(sheet: &Sheet, season: &Season, finish: &mut Season, fixture: u16) -> bool
    requires limits { IsWithinLimits sheet.now }
    requires is_finish { IsFinishOf sheet.now season.now finish.old }
    requires in_range { fixture < length season.now.scores }
    ensures is_finish { IsFinishOf sheet.now season.now finish.new }
    ensures number { Turns sheet.now season.now fixture finish.old finish.new result }
{
    if season.score(fixture).is_some() {
        return true;
    }
    let mark = next_mark(sheet.goal_limit, finish.score(fixture));
    let score = mark.score;
    finish.apply(&Event::Set { fixture, score });
    mark.is_round
}

/// A score of an open fixture, and whether it is the first one again.
#[derive(Clone, Copy)]
struct Mark {
    score: Score,
    is_round: bool,
}

impl Mark {
    fn next(home: u8, away: u8) -> Mark
        ensures { result
            ≡ record { score = record { home = home; away = away }; is_round = false } }
    {
        Mark {
            score: Score { home, away },
            is_round: false,
        }
    }
}

// The score that comes after this one.
fn next_mark(limit: u8, ended: Option<Score>) -> Mark
    requires limit { limit ≤ 20 }
    requires may { IsTrue (may_end limit None ended) }
    ensures may { IsTrue (may_end limit None (Some result.score)) }
    ensures number { end_number limit None (Some result.score)
        + (if result.is_round then ways_to_end limit None else 0)
        ≡ end_number limit None ended + 1 }
{
    let Some(Score { home, away }) = ended else {
        unreachable!()
    };
    if away < limit {
        return Mark::next(home, away + 1);
    }
    if home < limit {
        return Mark::next(home + 1, 0);
    }
    Mark {
        score: Score { home: 0, away: 0 },
        is_round: true,
    }
}
