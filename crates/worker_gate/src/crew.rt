//! What the threads of a round share, and which worker one is.

ghost use Rattle.std.specs.Prelude.{◌≡◌};

use league_core::Sheet;
use pool_lock::{Job, PoolLock};
use std::alloc::Global;

/// What the feeder and the workers of a round share.
#[derive(Drop)]
pub struct Crew<'a, J: Job, R, G> {
    pub rt: &'a R,
    pub alloc: Global,
    pub sheet: &'a Sheet,
    pub lock: &'a PoolLock<J>,
    pub gate: &'a G,
}

impl<'a, J: Job, R, G> Crew<'a, J, R, G> {
    pub fn new(
        rt: &'a R,
        alloc: Global,
        sheet: &'a Sheet,
        lock: &'a PoolLock<J>,
        gate: &'a G,
    ) -> Self
        ensures { result.sheet.now ≡ sheet.now }
    {
        Crew {
            rt,
            alloc,
            sheet,
            lock,
            gate,
        }
    }
}

/// Which worker it is, from 0, and whether it has no company.
#[derive(Clone, Copy)]
pub struct WorkerId {
    pub number: u8,
    pub is_sole: bool,
}
