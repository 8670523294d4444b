//! The work of one thread on a pool, to its end.

ghost use Rattle.std.specs.Prelude.{◌≡◌, IfOk, OnOk};
ghost use Rattle.league_core.specs.game.Seasons.{IsLeague};
ghost use Rattle.branch_pool.specs.inside.States.{out_count};
ghost use Rattle.verdict_run.specs.inside.Working.{WorksTo, IsSameLeague, AreSettled, AreDecided};
ghost use Rattle.verdict_run.specs.inside.Working.{IsEnough, FinishesWork};

use branch_pool::{Pool, Turn};
use branch_rules::ZoneSolver;
use league_core::{OutOfMemory, Season, Sheet};
use local_search::WalkingSolver;
use reason_core::Solver;
use score_box::Played;
use std::alloc::Global;

/// Works on each question of the pool in their order, and on its leaves as `take` would lend them,
/// until it is known or its budget is spent. No number is out before, and none is afterwards. If
/// memory runs out, the pool is gone.
pub fn finish(alloc: Global, pool: Pool) -> Result<Pool, OutOfMemory>
    requires home { out_count pool.loans ≡ 0 }
    ensures work { IfOk result (λ new. WorksTo pool new) }
    ensures same { IfOk result (λ new. IsSameLeague pool new) }
    ensures home { IfOk result (λ new. out_count new.loans ≡ 0) }
    ensures settled { IfOk result AreSettled }
    ensures enough { IfOk result (λ new. IsEnough new.sheet new.season → AreDecided new) }
{
    let mut pool = pool;
    finish_in_place(alloc, &mut pool)?;
    Ok(pool)
}

// The same, by a copy of the pool's sheet and season.
fn finish_in_place(alloc: Global, pool: &mut Pool) -> Result<(), OutOfMemory>
    requires { out_count pool.old.loans ≡ 0 }
    ensures { OnOk result (FinishesWork pool.old pool.new) }
{
    let sheet = pool.sheet().copy(alloc)?;
    let season = pool.season().copy(alloc)?;
    finish_season(alloc, &sheet, &season, pool)
}

// The same, if the sheet and the season are the pool's.
fn finish_season(
    alloc: Global,
    sheet: &Sheet,
    season: &Season,
    pool: &mut Pool,
) -> Result<(), OutOfMemory>
    requires sheet { sheet.now ≡ pool.old.sheet }
    requires season { season.now ≡ pool.old.season }
    requires league { IsLeague sheet.now season.now }
    requires home { out_count pool.old.loans ≡ 0 }
    ensures { OnOk result (FinishesWork pool.old pool.new) }
{
    let played = Played::of(alloc, sheet, season)?;
    finish_over(alloc, &played, pool)
}

// The same, if the tables are of the pool's sheet and season.
fn finish_over(alloc: Global, played: &Played, pool: &mut Pool) -> Result<(), OutOfMemory>
    requires sheet { played.now.sheet ≡ pool.old.sheet }
    requires season { played.now.season ≡ pool.old.season }
    requires home { out_count pool.old.loans ≡ 0 }
    ensures { OnOk result (FinishesWork pool.old pool.new) }
{
    let zones = ZoneSolver::new(alloc, played)?;
    let mut solver = WalkingSolver::new(alloc, played, zones);
    finish_by(pool, &mut solver)
}

// Works until there is nothing left to work on.
fn finish_by<W: Solver>(pool: &mut Pool, worker: &mut W) -> Result<(), OutOfMemory>
    requires home { out_count pool.old.loans ≡ 0 }
    requires sheet { W.sheet worker.old ≡ pool.old.sheet }
    requires season { W.season worker.old ≡ pool.old.season }
    ensures { OnOk result (FinishesWork pool.old pool.new) }
{
    loop {
        match pool.work_next(worker) {
            Turn::Worked => {}
            Turn::Nothing => {
                pool.recall_invariant();
                return Ok(());
            }
            Turn::OutOfMemory => return Err(OutOfMemory),
        }
    }
}
