//! A tree carried over to another season, zone by zone, each with a box of its own.

ghost use Rattle.std.specs.Prelude.{◌≡◌, ◌<◌, ◌++◌, ◌∷◌, [], length, false, IsTrue, IfOk};
ghost use Rattle.league_core.specs.game.Seasons.{IsLeague};
ghost use Rattle.league_core.specs.search.Zones.{is_test_of, is_zone_of};
ghost use Rattle.league_core.specs.search.Options.{has_finish};
ghost use Rattle.league_core.specs.search.Reasons.{has_reason};
ghost use Rattle.league_core.specs.search.Trees.{branch};
ghost use Rattle.tree_arena.specs.inside.Calls.{AreTestsOf};
ghost use Rattle.tree_reuse.specs.Retargets.{halves_in, halves_by, leaf_kept, retargeted};
ghost use Rattle.tree_reuse.specs.Retargets.{retargeted_from};
ghost use Rattle.reference_programs.specs.inside.Boxed.{HasTestsOf};

use crate::boxed::{BoxedTree, Node};
use league_core::{Listing, Literal, OutOfMemory, Question, Reason, Season, Sheet, Test};
use score_box::{Played, ZoneBox};
use std::alloc::Global;
use tie_bound::holds;
use tree_reuse::MOST_KEPT;

/// What the season leaves of a tree: refuted leaves whose reasons still hold, and the splits above
/// them; a tree of more than 100,001 nodes is one open leaf.
pub fn retarget(
    alloc: Global,
    sheet: &Sheet,
    question: &Question,
    tree: &BoxedTree,
    season: &Season,
) -> Result<BoxedTree, OutOfMemory>
    requires league { IsLeague sheet.now season.now }
    requires club { question.now.club < length sheet.now.clubs }
    requires tests { AreTestsOf sheet.now tree.now }
    ensures { IfOk result (λ new. new ≡ retargeted sheet.now season.now question.now tree.now) }
{
    let played = Played::of(alloc, sheet, season)?;
    retarget_over(alloc, &played, question, tree)
}

/// What the season of these tables leaves of a tree. The tables serve any number of trees.
#[tactic(auto, using(crate::proofs::TestLemmas::tests_of_splits))]
pub fn retarget_over(
    alloc: Global,
    played: &Played,
    question: &Question,
    tree: &BoxedTree,
) -> Result<BoxedTree, OutOfMemory>
    requires club { question.now.club < length played.now.sheet.clubs }
    requires tests { AreTestsOf played.now.sheet tree.now }
    ensures { IfOk result (λ new.
        new ≡ retargeted played.now.sheet played.now.season question.now tree.now) }
{
    let mut way = Listing::new(alloc);
    let kept = tree.carried(alloc, played, question, &mut way)?;
    if kept.nodes()?.len() > MOST_KEPT as usize {
        return BoxedTree::root(alloc);
    }
    Ok(kept)
}

type Way = Listing<Literal>;

impl BoxedTree {
    // What is left of a tree whose root has the zone of the way, whatever its size.
    #[cycle(carried)]
    fn carried(
        &self,
        alloc: Global,
        played: &Played,
        question: &Question,
        way: &mut Way,
    ) -> Result<BoxedTree, OutOfMemory>
        requires club { question.now.club < length played.now.sheet.clubs }
        requires tests { HasTestsOf played.now.sheet self.now }
        requires zone { IsTrue (is_zone_of played.now.sheet way.old) }
        ensures left { IfOk result (λ new. new
            ≡ retargeted_from played.now.sheet played.now.season question.now way.old self.now) }
        ensures same { IfOk result (λ _. way.new ≡ way.old) }
    {
        match &self.node {
            Node::Open | Node::Lent(..) => Ok(BoxedTree::leaf(alloc)),
            Node::Refuted(reason, _) => carried_leaf(alloc, played, question, way, *reason),
            Node::Split(test, _, yes_half, no_half) => {
                let test = *test;
                match halves(alloc, played, way, test)? {
                    (true, false) => yes_half.carried(alloc, played, question, way),
                    (false, _) => no_half.carried(alloc, played, question, way),
                    (true, true) => {
                        let yes = Literal { test, yes: true };
                        let no = Literal { test, yes: false };
                        let first = yes_half.carried_half(alloc, played, question, way, yes)?;
                        let second = no_half.carried_half(alloc, played, question, way, no)?;
                        split(alloc, test, first, second)
                    }
                }
            }
        }
    }

    #[cycle(carried)]
    #[tactic(auto, using(crate::proofs::TestLemmas::longer))]
    fn carried_half(
        &self,
        alloc: Global,
        played: &Played,
        question: &Question,
        way: &mut Way,
        literal: Literal,
    ) -> Result<BoxedTree, OutOfMemory>
        requires club { question.now.club < length played.now.sheet.clubs }
        requires tests { HasTestsOf played.now.sheet self.now }
        requires zone { IsTrue (is_zone_of played.now.sheet way.old) }
        requires literal { IsTrue (is_test_of played.now.sheet literal.test) }
        ensures left { IfOk result (λ new. new
            ≡ retargeted_from played.now.sheet played.now.season question.now
            (way.old ++ literal ∷ []) self.now) }
        ensures same { IfOk result (λ _. way.new ≡ way.old) }
    {
        way.push(literal)?;
        let half = self.carried(alloc, played, question, way)?;
        way.pop();
        Ok(half)
    }
}

// A refuted leaf stays if its reason holds.
fn carried_leaf(
    alloc: Global,
    played: &Played,
    question: &Question,
    way: &Way,
    reason: Reason,
) -> Result<BoxedTree, OutOfMemory>
    requires club { question.now.club < length played.now.sheet.clubs }
    requires zone { IsTrue (is_zone_of played.now.sheet way.now) }
    ensures { IfOk result (λ new. new ≡ leaf_kept
        (has_reason played.now.sheet played.now.season question.now way.now reason) reason) }
{
    let zone_box = ZoneBox::over(alloc, played, way.as_slice())?;
    if holds(&zone_box, question, &reason) {
        let node = Node::Refuted(reason, false);
        return Ok(BoxedTree { alloc, node });
    }
    Ok(BoxedTree::leaf(alloc))
}

fn split(
    alloc: Global,
    test: Test,
    yes_half: BoxedTree,
    no_half: BoxedTree,
) -> Result<BoxedTree, OutOfMemory>
    ensures { IfOk result (λ tree. tree ≡ branch test false yes_half no_half) }
{
    let first = Box::new(alloc, yes_half)?;
    let second = Box::new(alloc, no_half)?;
    let node = Node::Split(test, false, first, second);
    Ok(BoxedTree { alloc, node })
}

// Which halves stay: of a score's test those that have a finish, of a rival's both.
fn halves(
    alloc: Global,
    played: &Played,
    way: &mut Way,
    test: Test,
) -> Result<(bool, bool), OutOfMemory>
    requires zone { IsTrue (is_zone_of played.now.sheet way.old) }
    requires test { IsTrue (is_test_of played.now.sheet test) }
    ensures stay { IfOk result (λ stay. halves_in played.now.sheet played.now.season way.old test
        ≡ halves_by stay.0 stay.1) }
    ensures same { IfOk result (λ _. way.new ≡ way.old) }
{
    if let Test::Rival { .. } = test {
        return Ok((true, true));
    }
    let yes = has_half(alloc, played, way, Literal { test, yes: true })?;
    let no = has_half(alloc, played, way, Literal { test, yes: false })?;
    Ok((yes, no))
}

#[tactic(auto, using(crate::proofs::TestLemmas::longer))]
fn has_half(
    alloc: Global,
    played: &Played,
    way: &mut Way,
    literal: Literal,
) -> Result<bool, OutOfMemory>
    requires zone { IsTrue (is_zone_of played.now.sheet way.old) }
    requires literal { IsTrue (is_test_of played.now.sheet literal.test) }
    ensures has { IfOk result (λ has. has
        ≡ has_finish played.now.sheet played.now.season (way.old ++ literal ∷ [])) }
    ensures same { IfOk result (λ _. way.new ≡ way.old) }
{
    way.push(literal)?;
    let zone_box = ZoneBox::over(alloc, played, way.as_slice())?;
    let has_finish = zone_box.has_finish();
    way.pop();
    Ok(has_finish)
}
