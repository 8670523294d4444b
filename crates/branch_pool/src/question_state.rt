//! What the pool keeps for each of its questions.

ghost use Rattle.std.specs.Prelude.{◌≡◌, ◌<◌, ◌≤◌, ◌+◌, ◌^◌, IfOk, OnErr, OnOk, true, None, Some};
ghost use Rattle.std.specs.Prelude.{if◌then◌else◌};
ghost use Rattle.std.specs.Option.{option_or, option_map};
ghost use Rattle.league_core.specs.game.Seasons.{IsLeague};
ghost use Rattle.league_core.specs.search.Trees.{open_leaf, has_open, node_count};
ghost use Rattle.league_core.specs.inside.Lending.{times_lent, lent_count, lent_zones, put};
ghost use Rattle.tree_arena.specs.inside.Calls.{most_nodes};
ghost use Rattle.tree_reuse.specs.Retargets.{retargeted};
ghost use Rattle.branch_pool.specs.inside.States.{new_seat, is_workable};
ghost use Rattle.branch_pool.specs.inside.Steps.{seat_after, seat_recalled, seat_changed};
ghost use Rattle.branch_pool.specs.inside.Steps.{example_kept};
ghost use Rattle.branch_pool.specs.inside.Calls.{is_untouched, answer_of, example_over};
ghost use Rattle.branch_pool.specs.inside.QuestionStates.{LendsSeat, MayLend, WorksSeat, tree_for};
ghost use Rattle.branch_pool.specs.inside.Goodness.{IsGoodSeat};
ghost use Rattle.league_core.specs.game.Questions.{IsQuestionOf};

use crate::ticket::Answer;
use league_core::{OutOfMemory, Question, Season, Sheet, Zone};
use reason_core::{Finding, Solver};
use std::alloc::Global;
use tree_arena::{Example, Tree};

/// A pool has at most so many questions.
pub const MOST_QUESTIONS: u32 = 65_536;

/// A question, how far it has been taken apart, and what was found.
#[derive(Drop)]
pub struct QuestionState {
    pub question: Question,
    pub tree: Tree,
    /// The nodes that the present epoch has split or refuted.
    pub units: u32,
    /// The leaves that are lent.
    pub lent: u32,
    pub example: Option<Example>,
}

/// A leaf that is out with a worker: the epoch in which it was lent, the place of its question, and
/// its zone.
#[derive(Drop)]
pub struct Loan {
    pub epoch: u64,
    pub place: u16,
    pub zone: Zone,
}

impl QuestionState {
    /// A question without work.
    pub fn new(alloc: Global, question: Question) -> Result<QuestionState, OutOfMemory>
        ensures { IfOk result (λ seat. seat ≡ new_seat question) }
    {
        Ok(QuestionState {
            question,
            tree: Tree::root(alloc)?,
            units: 0,
            lent: 0,
            example: None,
        })
    }

    /// There is work for the question.
    pub fn is_workable(&self, sheet: &Sheet) -> bool
        ensures { result ≡ is_workable sheet.now self.now }
    {
        self.example.is_none()
            && self.tree.has_open()
            && u64::from(self.units) + u64::from(self.lent) < u64::from(sheet.budget)
    }

    /// There is work for the question, and none of it is out.
    pub fn is_untouched(&self, sheet: &Sheet) -> bool
        ensures { result ≡ is_untouched sheet.now self.now }
    {
        self.is_workable(sheet) && self.lent == 0
    }

    /// Lends the first open leaf under a number, and returns its zone twice: one for who works on
    /// it, one for who waits for it. If memory runs out, the question is as before.
    #[tactic(auto, using(crate::proofs::QuestionStateLemmas::lent_once))]
    pub fn lend(&mut self, alloc: Global, number: u64) -> Result<(Zone, Zone), OutOfMemory>
        requires open_leaf { has_open self.old.tree ≡ true }
        requires free { times_lent number self.old.tree ≡ 0 }
        requires few { node_count self.old.tree + lent_count self.old.tree ≤ most_nodes }
        requires fits { self.old.lent + 1 < 2 ^ 32 }
        ensures ok { IfOk result (λ zones. LendsSeat number self.old self.new zones.0 zones.1) }
        ensures err { OnErr result (self.new ≡ self.old) }
    {
        let Some(zone) = self.tree.lend(number)? else {
            unreachable!()
        };
        match zone.literals.copy(alloc) {
            Ok(literals) => {
                self.lent += 1;
                Ok((Zone { literals }, zone))
            }
            Err(refused) => {
                self.tree.reopen(number);
                Err(refused)
            }
        }
    }

    /// Puts what was found, if something was, in place of the leaf that is lent under a number, and
    /// returns the example that is not kept.
    pub fn settle(&mut self, number: u64, finding: Option<Finding>) -> Option<Example>
        requires out { times_lent number self.old.tree ≡ 1 }
        requires some { 0 < self.old.lent }
        requires fits { self.old.units + 1 < 2 ^ 32 }
        ensures seat { self.new ≡ seat_after number finding self.old }
        ensures example { result ≡ example_over self.old.example finding }
    {
        self.lent -= 1;
        match finding {
            Some(Finding::Refuted(reason)) => {
                self.units += 1;
                self.tree.refute(number, reason);
                None
            }
            Some(Finding::Split(literal)) => {
                self.units += 1;
                self.tree.split(number, literal.test);
                None
            }
            Some(Finding::Won(finish, lots)) => {
                self.tree.reopen(number);
                keep_first(&mut self.example, Example { finish, lots })
            }
            None => {
                self.tree.reopen(number);
                None
            }
        }
    }

    /// Solves the first open leaf in place, under a number. If memory runs out, the question is as
    /// before.
    pub fn work<W: Solver>(&mut self, number: u64, worker: &mut W) -> Result<(), OutOfMemory>
        requires may_lend { MayLend number self.old }
        requires good { IsGoodSeat (W.sheet worker.old) (W.season worker.old) self.old }
        requires question { IsQuestionOf (W.sheet worker.old) self.old.question }
        ensures ok { OnOk result
            (WorksSeat (W.sheet worker.old) (W.season worker.old) number self.old self.new) }
        ensures err { OnErr result (self.new ≡ self.old) }
        ensures same_sheet { W.sheet worker.new ≡ W.sheet worker.old }
        ensures same_season { W.season worker.new ≡ W.season worker.old }
    {
        let Some(zone) = self.tree.lend(number)? else {
            unreachable!()
        };
        match worker.solve(&self.question, zone.literals.as_slice()) {
            Ok(finding) => {
                self.lent += 1;
                let _ = self.settle(number, Some(finding));
                Ok(())
            }
            Err(refused) => {
                self.tree.reopen(number);
                Err(refused)
            }
        }
    }

    /// Opens each lent leaf.
    pub fn recall(&mut self)
        ensures { self.new ≡ seat_recalled self.old }
    {
        self.tree.reopen_all();
        self.lent = 0;
    }

    /// Goes on in another season with the tree that was made for it, if one was; an example stays
    /// if it is one there.
    #[tactic(auto, using(crate::proofs::UncutLemmas::is_left, crate::proofs::UncutLemmas::stays))]
    pub fn change(&mut self, sheet: &Sheet, season: &Season, tree: &mut Option<Tree>)
        requires { tree.old ≡ tree_for sheet.now season.now self.old }
        ensures { self.new ≡ seat_changed sheet.now season.now self.old }
    {
        match tree.take() {
            Some(tree) => self.tree = tree,
            None => {}
        }
        self.begin_anew(sheet, season);
    }

    /// Goes on in another season with its tree as it is, which is one open leaf; an example stays
    /// if it is one there.
    #[tactic(auto, using(tree_reuse::proofs::RetargetLemmas::open_leaf_stays))]
    pub fn change_uncut(&mut self, sheet: &Sheet, season: &Season)
        requires { self.old.tree ≡ open_leaf }
        ensures { self.new ≡ seat_changed sheet.now season.now self.old }
    {
        self.begin_anew(sheet, season);
    }

    // No unit is used and no leaf is lent, and an example stays if it is one.
    fn begin_anew(&mut self, sheet: &Sheet, season: &Season)
        ensures { self.new ≡ record self.old {
          units = 0;
          lent = 0;
          example = example_kept sheet.now season.now self.old.example;
        } }
    {
        self.units = 0;
        self.lent = 0;
        if !is_kept(sheet, season, &self.example) {
            self.example = None;
        }
    }

    /// How far the question is.
    pub fn answer(&self, sheet: &Sheet) -> Answer
        ensures { result ≡ answer_of sheet.now self.now }
    {
        if self.example.is_some() {
            Answer::Won
        } else if self.tree.is_refuted() {
            Answer::Refuted
        } else if self.units == sheet.budget {
            Answer::Spent
        } else {
            Answer::NotYet
        }
    }
}

// The example, if there is one, is one of the season too.
fn is_kept(sheet: &Sheet, season: &Season, example: &Option<Example>) -> bool
    ensures { example_kept sheet.now season.now example.now
        ≡ (if result then example.now else None) }
{
    match example {
        Some(example) => example.finish.is_of(sheet, season),
        None => true,
    }
}

// An example stays if there is none yet, and is returned if there is one.
fn keep_first(kept: &mut Option<Example>, example: Example) -> Option<Example>
    ensures kept { kept.new ≡ option_or kept.old (Some example) }
    ensures over { result ≡ option_map (λ _. example) kept.old }
{
    if kept.is_some() {
        return Some(example);
    }
    *kept = Some(example);
    None
}
