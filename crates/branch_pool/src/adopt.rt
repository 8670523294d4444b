//! A question goes on from a tree that somebody kept.

ghost use Rattle.std.specs.Prelude.{◌≡◌, ◌<◌, [], IfOk, IfSome, OnErr, OnOk, length};
ghost use Rattle.std.specs.List.{slice_get};
ghost use Rattle.league_core.specs.game.Seasons.{IsLeague};
ghost use Rattle.tree_reuse.specs.Asked.{IsAskedTree};
ghost use Rattle.branch_pool.specs.inside.States.{out_count};
ghost use Rattle.branch_pool.specs.inside.Steps.{Adopts};
ghost use Rattle.branch_pool.specs.inside.Adoptions.{AreAdoptable, MayAdoptAll, MayBeAdopted};
ghost use Rattle.branch_pool.specs.inside.Adoptions.{pool_adopted, seats_adopted, seat_adopted_if};

use crate::pool::Pool;
use crate::question_state::QuestionState;
use league_core::{OutOfMemory, Season, Sheet};
use score_box::{Played, ZoneBox};
use std::alloc::Global;
use tree_arena::Tree;
use tree_reuse::{retarget, retarget_by};

impl Pool {
    /// The question at a place, from 0, goes on from what the season leaves of a tree, whoever made
    /// it, in place of its own: each refuted leaf is tested, and no unit is used. If memory runs
    /// out, the pool is as before.
    pub fn adopt(&mut self, place: u16, tree: Tree) -> Result<(), OutOfMemory>
        requires in_range { place < length self.old.questions }
        requires home { out_count self.old.loans ≡ 0 }
        requires asked { IfSome (slice_get self.old.questions place)
            (λ question. IsAskedTree self.old.sheet question tree) }
        ensures ok { OnOk result (Adopts self.old place tree self.new) }
        ensures err { OnErr result (self.new ≡ self.old) }
    {
        let question = self.questions[place as usize];
        let kept = retarget(self.alloc, &self.sheet, &question, &tree, &self.season)?;
        let seat = &mut self.seats[place as usize];
        seat.adopt(kept);
        self.work_from = 0;
        Ok(())
    }

    /// Each question that has a tree on the list goes on from what the season leaves of it, as by
    /// `adopt`. The season's tables are made once. If memory runs out, the pool is gone.
    pub fn adopt_all(self, trees: Vec<Option<Tree>>) -> Result<Pool, OutOfMemory>
        requires { MayAdoptAll self trees.items }
        ensures { IfOk result (λ new. new ≡ pool_adopted self trees.items) }
    {
        let Pool {
            alloc,
            sheet,
            questions,
            season,
            log,
            mut seats,
            work_from: _,
            loans,
            is_open,
        } = self;
        adopt_trees(alloc, &sheet, &season, &mut seats, trees)?;
        Ok(Pool {
            alloc,
            sheet,
            questions,
            season,
            log,
            seats,
            work_from: 0,
            loans,
            is_open,
        })
    }
}

impl QuestionState {
    // Goes on from a tree, of which no unit is its own.
    fn adopt(&mut self, tree: Tree)
        ensures { self.new ≡ record self.old { tree = tree; units = 0 } }
    {
        self.tree = tree;
        self.units = 0;
    }
}

// Each question that has a tree on the list goes on from what the season leaves of it.
fn adopt_trees(
    alloc: Global,
    sheet: &Sheet,
    season: &Season,
    seats: &mut Vec<QuestionState>,
    trees: Vec<Option<Tree>>,
) -> Result<(), OutOfMemory>
    requires league { IsLeague sheet.now season.now }
    requires adoptable { AreAdoptable sheet.now seats.old.items trees.items }
    ensures { OnOk result
        (seats.new.items ≡ seats_adopted sheet.now season.now seats.old.items trees.items) }
{
    let played = Played::of(alloc, sheet, season)?;
    let mut zone_box = ZoneBox::over(alloc, &played, &[])?;
    adopt_by(alloc, &mut zone_box, seats, trees)
}

// The same by a box without a literal, the last tree first.
fn adopt_by(
    alloc: Global,
    zone_box: &mut ZoneBox,
    seats: &mut Vec<QuestionState>,
    trees: Vec<Option<Tree>>,
) -> Result<(), OutOfMemory>
    requires root { zone_box.old.zone ≡ [] }
    requires adoptable { AreAdoptable zone_box.old.sheet seats.old.items trees.items }
    ensures { OnOk result (seats.new.items
        ≡ seats_adopted zone_box.old.sheet zone_box.old.season seats.old.items trees.items) }
{
    let mut trees = trees;
    while let Some(tree) = trees.pop() {
        let seat = &mut seats[trees.len()];
        adopt_left(alloc, zone_box, seat, tree)?;
    }
    Ok(())
}

// A question goes on from what is left of a tree, if there is one.
fn adopt_left(
    alloc: Global,
    zone_box: &mut ZoneBox,
    seat: &mut QuestionState,
    tree: Option<Tree>,
) -> Result<(), OutOfMemory>
    requires root { zone_box.old.zone ≡ [] }
    requires adoptable { IfSome tree (λ it. MayBeAdopted zone_box.old.sheet it seat.old) }
    ensures seat { OnOk result (seat.new
        ≡ seat_adopted_if zone_box.old.sheet zone_box.old.season tree seat.old) }
    ensures same { OnOk result (zone_box.new ≡ zone_box.old) }
{
    let Some(tree) = tree else {
        return Ok(());
    };
    let left = retarget_by(alloc, zone_box, &seat.question, &tree)?;
    seat.adopt(left);
    Ok(())
}
