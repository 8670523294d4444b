//! How a season is reported to a new pool.

ghost use Rattle.std.specs.Prelude.{◌<◌, ◌≤◌, ◌+◌, OnOk, length};
ghost use Rattle.league_core.specs.game.Limits.{most_clubs};
ghost use Rattle.league_core.specs.game.Seasons.{IsLeague};
ghost use Rattle.verdict_run.specs.inside.SeasonReports.{HasBeenReported, AsksTheSame};

use branch_pool::Pool;
use league_core::{Event, OutOfMemory, Season};

/// Reports the season's deductions and then its scores. Nothing has been reported to the pool yet.
pub(crate) fn report_season(pool: &mut Pool, season: &Season) -> Result<(), OutOfMemory>
    requires league { IsLeague pool.old.sheet season.now }
    requires unreported { HasBeenReported season.now 0 0 pool.old }
    ensures reported { OnOk result (HasBeenReported season.now (length season.now.deductions)
        (length season.now.scores) pool.new) }
    ensures same { OnOk result (AsksTheSame pool.old pool.new) }
{
    report_deductions(pool, season)?;
    report_scores(pool, season)
}

fn report_deductions(pool: &mut Pool, season: &Season) -> Result<(), OutOfMemory>
    requires league { IsLeague pool.old.sheet season.now }
    requires unreported { HasBeenReported season.now 0 0 pool.old }
    ensures reported { OnOk result (HasBeenReported season.now (length
        season.now.deductions) 0 pool.new) }
    ensures same { OnOk result (AsksTheSame pool.old pool.new) }
{
    for club in 0..season.deductions().len() as u8 {
        report_deduction(pool, season, club)?;
    }
    Ok(())
}

// Reports the points taken off a club, if there are any.
fn report_deduction(pool: &mut Pool, season: &Season, club: u8) -> Result<(), OutOfMemory>
    requires reported { HasBeenReported season.now club 0 pool.old }
    requires in_range { club < length season.now.deductions }
    ensures reported { OnOk result (HasBeenReported season.now (club + 1) 0 pool.new) }
    ensures same { OnOk result (AsksTheSame pool.old pool.new) }
{
    let points = season.deductions()[club as usize];
    if points == 0 {
        return Ok(());
    }
    pool.change_with_room(Event::Deduct { club, points })
}

fn report_scores(pool: &mut Pool, season: &Season) -> Result<(), OutOfMemory>
    requires league { IsLeague pool.old.sheet season.now }
    requires unreported { HasBeenReported season.now (length season.now.deductions) 0 pool.old }
    ensures reported { OnOk result (HasBeenReported season.now (length season.now.deductions)
        (length season.now.scores) pool.new) }
    ensures same { OnOk result (AsksTheSame pool.old pool.new) }
{
    for fixture in 0..season.scores().len() as u16 {
        report_score(pool, season, fixture)?;
    }
    Ok(())
}

// Reports the score of a fixture, if it has one.
fn report_score(pool: &mut Pool, season: &Season, fixture: u16) -> Result<(), OutOfMemory>
    requires clubs { length season.now.deductions ≤ most_clubs }
    requires reported { HasBeenReported season.now (length season.now.deductions) fixture pool.old }
    requires in_range { fixture < length season.now.scores }
    ensures reported { OnOk result (HasBeenReported season.now (length
        season.now.deductions) (fixture + 1)
        pool.new) }
    ensures same { OnOk result (AsksTheSame pool.old pool.new) }
{
    match season.score(fixture) {
        None => Ok(()),
        Some(score) => pool.change_with_room(Event::Set { fixture, score }),
    }
}
