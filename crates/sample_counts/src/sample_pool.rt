//! The pool of a sample league.

ghost use Rattle.std.specs.Prelude.{◌<◌, ◌≤◌, IfOk, OnOk, length};
ghost use Rattle.league_core.specs.game.Limits.{most_events};
ghost use Rattle.league_core.specs.game.Seasons.{AreEventsOf};
ghost use Rattle.sample_counts.specs.inside.SamplePools.{IsSamplePool, IsBegun, HasHeard};

use crate::sample::make_sample;
use answer_rows::questions;
use branch_pool::Pool;
use league_core::{Event, OutOfMemory};
use std::alloc::Global;

/// The pool of the league of a seed, with all its questions, once its results are reported.
pub fn sample_pool(alloc: Global, seed: u64) -> Result<Pool, OutOfMemory>
    ensures { IfOk result (IsSamplePool seed) }
{
    let (sheet, events) = make_sample(alloc, seed)?;
    let asked = questions(alloc, &sheet)?;
    let mut pool = Pool::begin(alloc, sheet, asked)?;
    tell_all(&mut pool, events.as_slice())?;
    pool.recall_invariant();
    Ok(pool)
}

// Reports the events to a pool that has taken none.
fn tell_all(pool: &mut Pool, events: &[Event]) -> Result<(), OutOfMemory>
    requires begun { IsBegun pool.old }
    requires of_sheet { AreEventsOf pool.old.sheet events.now }
    requires few { length events.now ≤ most_events }
    ensures { OnOk result (HasHeard pool.old events.now pool.new) }
{
    for event in events {
        pool.recall_invariant();
        pool.change_with_room(*event)?;
    }
    Ok(())
}
