//! What a round with workers begins with.

ghost use Rattle.std.specs.Prelude.{◌≡◌, IfOk};
ghost use Rattle.branch_pool.specs.inside.States.{out_count};
ghost use Rattle.worker_gate.specs.inside.Starts.{IsStartReady};

use branch_pool::Pool;
use epoch_cancel::{EpochWord, Eye, Front, Owner};
use league_core::{OutOfMemory, Sheet};
use std::alloc::Global;
use std::sync::ledger::Blank;

/// The pool and its sheet, the word of the round with the seats of the one who tells, of the one
/// who reports, and of each worker, and the blank of its ledger.
#[derive(Drop)]
pub struct Start<'a> {
    pub sheet: &'a Sheet,
    pub pool: Pool,
    pub word: EpochWord,
    pub owner: Owner,
    pub front: Front,
    pub eyes: Vec<Eye>,
    pub blank: Blank,
}

impl<'a> Start<'a> {
    /// Seats at a new word, after the pool's log, for so many workers. If memory runs out the pool
    /// is gone.
    pub fn new(
        alloc: Global,
        sheet: &'a Sheet,
        pool: Pool,
        workers: u8,
    ) -> Result<Start<'a>, OutOfMemory>
        requires home { out_count pool.loans ≡ 0 }
        ensures pool { IfOk result (λ start. start.pool ≡ pool) }
        ensures sheet { IfOk result (λ start. start.sheet.now ≡ sheet.now) }
        ensures ready { IfOk result (λ start. IsStartReady start) }
    {
        let (word, owner, front, eyes) = EpochWord::new(alloc, pool.log(), workers)?;
        let blank = Blank::new(1);
        Ok(Start {
            sheet,
            pool,
            word,
            owner,
            front,
            eyes,
            blank,
        })
    }
}
