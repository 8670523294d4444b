//! A tree carried over to another season.

ghost use Rattle.std.specs.Prelude.{◌≡◌, ◌<◌, [], length, IfOk, OnOk};
ghost use Rattle.league_core.specs.game.Seasons.{IsLeague};
ghost use Rattle.tree_arena.specs.inside.Calls.{AreTestsOf};
ghost use Rattle.tree_reuse.specs.Retargets.{retargeted};

use crate::box_moves::root_box;
use crate::carry::carry;
use crate::halves::MOST_KEPT;
use league_core::{OutOfMemory, Question, Season, Sheet};
use score_box::{Played, ZoneBox};
use std::alloc::Global;
use tree_arena::Tree;

/// What the season leaves of a tree: refuted leaves whose reasons still hold, and the splits above
/// them; a tree of more than 100,001 nodes is one open leaf. At most one look at each node; for a
/// tree that is one open leaf nothing of the season is looked at.
pub fn retarget(
    alloc: Global,
    sheet: &Sheet,
    question: &Question,
    tree: &Tree,
    season: &Season,
) -> Result<Tree, OutOfMemory>
    requires league { IsLeague sheet.now season.now }
    requires club { question.now.club < length sheet.now.clubs }
    requires tests { AreTestsOf sheet.now tree.now }
    ensures { IfOk result (λ new. new ≡ retargeted sheet.now season.now question.now tree.now) }
{
    if tree.is_one_open_leaf() {
        return Tree::root(alloc);
    }
    let played = Played::of(alloc, sheet, season)?;
    retarget_over(alloc, &played, question, tree)
}

/// What the season of these tables leaves of a tree. The tables serve any number of trees.
pub fn retarget_over(
    alloc: Global,
    played: &Played,
    question: &Question,
    tree: &Tree,
) -> Result<Tree, OutOfMemory>
    requires club { question.now.club < length played.now.sheet.clubs }
    requires tests { AreTestsOf played.now.sheet tree.now }
    ensures { IfOk result (λ new.
        new ≡ retargeted played.now.sheet played.now.season question.now tree.now) }
{
    if tree.is_one_open_leaf() {
        return Tree::root(alloc);
    }
    let mut zone_box = root_box(alloc, played)?;
    retarget_by(alloc, &mut zone_box, question, tree)
}

/// What the season of this box leaves of a tree. The box is one without a literal, and after an
/// `Ok` it is so again: it serves any number of trees. If memory runs out, nothing is said of it.
pub fn retarget_by(
    alloc: Global,
    zone_box: &mut ZoneBox,
    question: &Question,
    tree: &Tree,
) -> Result<Tree, OutOfMemory>
    requires root { zone_box.old.zone ≡ [] }
    requires club { question.now.club < length zone_box.old.sheet.clubs }
    requires tests { AreTestsOf zone_box.old.sheet tree.now }
    ensures tree { IfOk result (λ new.
        new ≡ retargeted zone_box.old.sheet zone_box.old.season question.now tree.now) }
    ensures same { OnOk result (zone_box.new ≡ zone_box.old) }
{
    let found = carry(alloc, zone_box, question, tree)?;
    if found.len() > MOST_KEPT as usize {
        return Tree::root(alloc);
    }
    Tree::of_preorder(alloc, found.as_slice())
}
