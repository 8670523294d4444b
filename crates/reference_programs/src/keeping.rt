//! A finish that is met is kept as a copy.

ghost use Rattle.std.specs.Prelude.{◌≡◌, IfOk, IsTrue};
ghost use Rattle.league_core.specs.game.Finishes.{is_played};

use league_core::{Finish, OutOfMemory, Season};
use std::alloc::Global;

/// A copy of a season that is played to its end, as a finish.
pub fn kept(alloc: Global, finish: &Season) -> Result<Finish, OutOfMemory>
    requires { IsTrue (is_played finish.now) }
    ensures { IfOk result (λ copy. copy ≡ finish.now) }
{
    let copy = finish.copy(alloc)?;
    match Finish::of_season(copy) {
        Ok(finish) => Ok(finish),
        Err(_) => unreachable!(),
    }
}
