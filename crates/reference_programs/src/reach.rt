//! What one club can reach, and the verdict that follows.

ghost use Rattle.std.specs.Prelude.{◌≡◌, ◌<◌, ℕ, length, IsTrue, IfOk, OnErr, OnOk};
ghost use Rattle.league_core.specs.declared.sheet.Sheet.{Sheet};
ghost use Rattle.league_core.specs.game.Sheets.{IsWithinLimits};
ghost use Rattle.league_core.specs.game.Results.{Results, are_results};
ghost use Rattle.league_core.specs.game.Finishes.{is_played};
ghost use Rattle.reference_programs.specs.inside.Reaches.{IsReachOf, reach_at, with_finish};
ghost use Rattle.reference_programs.specs.inside.Reaches.{with_better};
ghost use Rattle.reference_programs.specs.inside.Reaches.{with_worse, Widens};
ghost use Rattle.reference_programs.specs.inside.Outcomes.{verdict_at, IsVerdictOf};

use crate::keeping::kept;
use crate::verdict::WalkVerdict;
use final_rank::PlaceRange;
use league_core::{Finish, OutOfMemory, Season};
use std::alloc::Global;

/// The least and the greatest place of a club over some finishes, from 1, each with a finish that
/// has it: the least with the club first in the lots, the greatest with the club last.
#[derive(Drop)]
pub struct Reach {
    pub best: u8,
    pub best_finish: Finish,
    pub worst: u8,
    pub worst_finish: Finish,
}

impl Reach {
    /// The reach over one finish.
    pub(crate) fn of(alloc: Global, span: PlaceRange, finish: &Season) -> Result<Reach, OutOfMemory>
        requires { IsTrue (is_played finish.now) }
        ensures { IfOk result (λ reach. reach ≡ reach_at span finish.now) }
    {
        Ok(Reach {
            best: span.best,
            best_finish: kept(alloc, finish)?,
            worst: span.worst,
            worst_finish: kept(alloc, finish)?,
        })
    }

    /// Takes one finish more. It is copied only if it gives the club a better place than those so
    /// far, or a worse one; a place never stands without its finish, even if memory is short.
    pub(crate) fn take(
        &mut self,
        alloc: Global,
        span: PlaceRange,
        finish: &Season,
    ) -> Result<(), OutOfMemory>
        requires { IsTrue (is_played finish.now) }
        ensures taken { OnOk result (self.new ≡ with_finish self.old span finish.now) }
        ensures spared { OnErr result (Widens self.old span) }
    {
        self.take_better(alloc, span.best, finish)?;
        self.take_worse(alloc, span.worst, finish)?;
        Ok(())
    }

    fn take_better(&mut self, alloc: Global, place: u8, finish: &Season) -> Result<(), OutOfMemory>
        requires { IsTrue (is_played finish.now) }
        ensures taken { OnOk result (self.new ≡ with_better self.old place finish.now) }
        ensures spared { OnErr result (place < self.old.best) }
        ensures kept { OnErr result (self.new ≡ self.old) }
    {
        if place < self.best {
            self.best_finish = kept(alloc, finish)?;
            self.best = place;
        }
        Ok(())
    }

    fn take_worse(&mut self, alloc: Global, place: u8, finish: &Season) -> Result<(), OutOfMemory>
        requires { IsTrue (is_played finish.now) }
        ensures taken { OnOk result (self.new ≡ with_worse self.old place finish.now) }
        ensures spared { OnErr result (self.old.worst < place) }
        ensures kept { OnErr result (self.new ≡ self.old) }
    {
        if self.worst < place {
            self.worst_finish = kept(alloc, finish)?;
            self.worst = place;
        }
        Ok(())
    }

    /// The verdict for a line of so many first places, if this is the club's reach over all
    /// finishes of a season. If it is `Possible` the two finishes of the reach show both sides: the
    /// one with the club first in the lots, the other with the club last.
    pub fn verdict(&self, line: u8) -> WalkVerdict
        ensures value { result ≡ verdict_at self.now line }
        ensures meaning { (sheet : Sheet) (season : Results) (club : ℕ)
            → IsWithinLimits sheet → IsTrue (are_results season) → club < length sheet.clubs
            → IsReachOf sheet season club self.now
            → IsVerdictOf sheet season club line self.now result }
    {
        if self.worst <= line {
            WalkVerdict::Clinched
        } else if line < self.best {
            WalkVerdict::Lost
        } else {
            WalkVerdict::Possible
        }
    }
}
