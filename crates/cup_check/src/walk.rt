//! What tree about a group is read, where its reading stands, and what a node makes of that.

ghost use Rattle.std.specs.Prelude.{◌≡◌, ◌<◌, ◌≤◌, ◌+◌, ◌^◌, ℕ, OnOk, IfOk, true, false, length};
ghost use Rattle.check_bounds.specs.inside.Trails.{root_of};
ghost use Rattle.league_core.specs.inside.Pending.{pending_of};
ghost use Rattle.cert_check.specs.inside.Goes.{NodeSays};
ghost use Rattle.cup_groups.specs.inside.KindQuestions.{group_question_of};
ghost use Rattle.cup_grammar.specs.PlacedGroups.{refuted_node, split_node};
ghost use Rattle.cup_grammar.specs.CupDues.{after_group_leaf};
ghost use Rattle.cup_check.specs.inside.CupTreeCalls.{IsPathInGroup};
ghost use Rattle.cup_check.specs.inside.CupTreeCalls.{after_group_walked, group_nodes_due};
ghost use Rattle.cup_check.specs.inside.CupTreeCalls.{node_seen};

use crate::leaf::GroupNode;
use crate::place::GroupPlace;
use cert_check::{CheckStopAt, Tally, is_tally_whole, next_half, with_fresh};
use check_bounds::Trail;
use cup_groups::KindQuestion;
use cup_sheet::GroupReason;
use league_core::{Literal, OutOfMemory, Test};
use line_tokens::{TreeKind, is_test_for};
use std::alloc::Global;

/// What kind of tree, for which question.
#[derive(Clone, Copy)]
pub struct GroupTreeSpec {
    pub kind: TreeKind,
    pub question: KindQuestion,
}

/// Where the reading of a tree stands: the way to the zone that is due, and what was counted.
#[derive(Drop)]
pub struct GroupWalk<'a> {
    pub path: Trail<'a>,
    pub tally: Tally,
}

impl<'a> GroupPlace<'a> {
    /// Where the reading of a tree begins: at the whole season.
    pub fn walk(&self, alloc: Global) -> Result<GroupWalk<'a>, OutOfMemory>
        ensures { IfOk result (λ walk. walk ≡ record {
          path = root_of self.now.sheet self.now.season;
          tally = record { news = 0; some_open = false };
        }) }
    {
        Ok(GroupWalk {
            path: Trail::new(alloc, self.sheet, self.season)?,
            tally: Tally {
                news: 0,
                some_open: false,
            },
        })
    }

    /// Takes one node: true if the tree is whole after it.
    pub fn take(
        &self,
        at: usize,
        node: GroupNode,
        wanted: GroupTreeSpec,
        walk: &mut GroupWalk,
    ) -> Result<bool, CheckStopAt>
        requires in_range { wanted.question.club < length self.now.sheet.clubs }
        requires path { IsPathInGroup self.now wanted walk.old.path }
        requires few { walk.old.tally.news + 1 < 2 ^ 64 }
        ensures says { NodeSays
            (after_group_walked self.now wanted walk.old (node_seen node))
            at (group_nodes_due self.now wanted walk.new) result }
        ensures path { OnOk result (IsPathInGroup self.now wanted walk.new.path) }
        ensures few { walk.new.tally.news ≤ walk.old.tally.news + 1 }
    {
        match node {
            GroupNode::Split { test, fresh } => self.take_split(at, test, fresh, wanted, walk),
            GroupNode::Refuted { reason, fresh } => {
                self.take_refuted(at, reason, fresh, wanted, walk)
            }
            GroupNode::Open => {
                walk.tally.some_open = true;
                self.leave(at, wanted, walk)
            }
        }
    }

    // Goes into the half of a split in which its test holds.
    fn take_split(
        &self,
        at: usize,
        test: Test,
        fresh: bool,
        wanted: GroupTreeSpec,
        walk: &mut GroupWalk,
    ) -> Result<bool, CheckStopAt>
        requires path { IsPathInGroup self.now wanted walk.old.path }
        requires few { walk.old.tally.news + 1 < 2 ^ 64 }
        ensures says { NodeSays
            (after_group_walked self.now wanted walk.old (split_node test fresh))
            at (group_nodes_due self.now wanted walk.new) result }
        ensures path { OnOk result (IsPathInGroup self.now wanted walk.new.path) }
        ensures few { walk.new.tally.news ≤ walk.old.tally.news + 1 }
    {
        if !is_test_for(self.sheet, &wanted.question.place(), test) {
            return Err(CheckStopAt::BadLine(at));
        }
        walk.tally = with_fresh(fresh, walk.tally);
        walk.path.go(Literal { test, yes: true })?;
        Ok(false)
    }

    // Takes a leaf with a reason, which has to hold in the zone that is due.
    fn take_refuted(
        &self,
        at: usize,
        reason: GroupReason,
        fresh: bool,
        wanted: GroupTreeSpec,
        walk: &mut GroupWalk,
    ) -> Result<bool, CheckStopAt>
        requires in_range { wanted.question.club < length self.now.sheet.clubs }
        requires path { IsPathInGroup self.now wanted walk.old.path }
        requires few { walk.old.tally.news + 1 < 2 ^ 64 }
        ensures says { NodeSays
            (after_group_walked self.now wanted walk.old (refuted_node reason fresh))
            at (group_nodes_due self.now wanted walk.new) result }
        ensures path { OnOk result (IsPathInGroup self.now wanted walk.new.path) }
        ensures few { walk.new.tally.news ≤ walk.old.tally.news + 1 }
    {
        if !self.may_refute(&wanted.question, reason) {
            return Err(CheckStopAt::BadLine(at));
        }
        if !self.has_reason(&wanted.question, &walk.path, reason) {
            return Err(CheckStopAt::NoProof(at));
        }
        walk.tally = with_fresh(fresh, walk.tally);
        self.leave(at, wanted, walk)
    }

    // Leaves a leaf that proves what it says.
    fn leave(
        &self,
        at: usize,
        wanted: GroupTreeSpec,
        walk: &mut GroupWalk,
    ) -> Result<bool, CheckStopAt>
        requires path { IsPathInGroup self.now wanted walk.old.path }
        ensures says { NodeSays
            (after_group_leaf wanted.kind self.now (group_question_of wanted.question)
            (pending_of walk.old.path.zone) walk.old.tally true)
            at (group_nodes_due self.now wanted walk.new) result }
        ensures path { OnOk result (IsPathInGroup self.now wanted walk.new.path) }
        ensures same { walk.new.tally ≡ walk.old.tally }
    {
        if next_half(&mut walk.path)? {
            Ok(false)
        } else if is_tally_whole(self.sheet.budget, wanted.kind, walk.tally) {
            Ok(true)
        } else {
            Err(CheckStopAt::NoProof(at))
        }
    }
}
