//! Some end of each group of a cup, whatever it shows.

ghost use Rattle.std.specs.Prelude.{◌≡◌, ◌≤◌, IfOk, length};
ghost use Rattle.league_core.specs.declared.sheet.Sheet.{Sheet};
ghost use Rattle.league_core.specs.game.Finishes.{IsFinishOf};
ghost use Rattle.league_core.specs.game.Seasons.{IsLeague};
ghost use Rattle.cup_sheet.specs.Cups.{IsCup, AreSeasonsOf};
ghost use Rattle.runners_up.specs.inside.JointEnds.{IsGroupEnd, AreGroupEnds};

use cup_sheet::Cup;
use final_rank::lots_for;
use league_core::{Claim, Event, Finish, OutOfMemory, Score, Season, Sheet};
use std::alloc::Global;
use tree_arena::Example;

const NO_GOALS: Score = Score { home: 0, away: 0 };

/// An end of each group, in their order.
pub fn any_ends(alloc: Global, cup: &Cup, seasons: &[Season]) -> Result<Vec<Example>, OutOfMemory>
    requires cup { IsCup cup.now }
    requires seasons { AreSeasonsOf cup.now.groups seasons.now }
    ensures { IfOk result (λ ends. AreGroupEnds cup.now.groups seasons.now ends.items) }
{
    let groups = cup.groups.as_slice();
    let mut ends = Vec::new(alloc);
    for group in 0..groups.len() {
        ends.push(any_end(alloc, &groups[group], &seasons[group])?)?;
    }
    Ok(ends)
}

// Each match that is not played ends without goals, and the first club is drawn first.
fn any_end(alloc: Global, sheet: &Sheet, season: &Season) -> Result<Example, OutOfMemory>
    requires { IsLeague sheet.now season.now }
    ensures { IfOk result (IsGroupEnd sheet.now season.now) }
{
    let mut ended = season.copy(alloc)?;
    end_goalless(&mut ended, season);
    let lots = lots_for(alloc, sheet.clubs.len() as u8, 0, Claim::Inside)?;
    let finish = Finish::of_season(ended).unwrap();
    Ok(Example { finish, lots })
}

// Ends each match of the season that is not played.
fn end_goalless(ended: &mut Season, season: &Season)
    requires few { length season.now.scores ≤ 600 }
    requires same { ended.old ≡ season.now }
    ensures { (sheet : Sheet) → IsFinishOf sheet season.now ended.new }
{
    for fixture in 0..season.scores().len() as u16 {
        let score = season.score(fixture).unwrap_or(NO_GOALS);
        ended.apply(&Event::Set { fixture, score });
    }
}
