//! Trees in a report, node by node.

ghost use Rattle.std.specs.Prelude.{◌≡◌, ◌<◌, ◌≤◌, ◌+◌, ◌^◌, IsTrue, OnOk, true, length};
ghost use Rattle.league_core.specs.game.Questions.{IsQuestionOf};
ghost use Rattle.line_tokens.specs.LineRanges.{is_wide_reason_for};
ghost use Rattle.wide_lines.specs.WideReasons.{has_wide_reason};
ghost use Rattle.line_tokens.specs.Tokens.{counts};
ghost use Rattle.cert_check.specs.ExpectedItems.{whole_tree, after};
ghost use Rattle.cert_check.specs.ExpectedItems as dues;
ghost use Rattle.cert_check.specs.inside.Goes.{NodeSays};
ghost use Rattle.cert_check.specs.inside.Calls.{Goes, nodes_due};
ghost use Rattle.league_core.specs.inside.Pending.{pending_of};
ghost use Rattle.cert_check.specs.inside.Calls.{IsPathFor, after_walked};

use crate::expected::Tally;
use crate::path::next_half;
use crate::ranges::may_refute;
use crate::report::Report;
use crate::stop::CheckStopAt;
use check_bounds::Trail;
use check_near::has_near_on;
use league_core::{Literal, Question, Test};
use line_tokens::{Token, TreeKind, is_test_for, wide_node_of};
use wide_lines::{WideNode, WideReason};

// What kind of tree, for which question.
#[derive(Clone, Copy)]
pub struct TreeSpec {
    pub kind: TreeKind,
    pub question: Question,
}

// Where the reading of a tree stands: the way to the zone that is due, and what was counted.
#[derive(Drop)]
pub struct Walk<'a> {
    pub path: Trail<'a>,
    pub tally: Tally,
}

impl<'a> Report<'a> {
    /// The nodes of a tree from its root on.
    pub fn tree(&self, from: usize, wanted: TreeSpec) -> Result<usize, CheckStopAt>
        requires room { from ≤ length self.now.tokens }
        requires question { IsQuestionOf self.now.basis.sheet wanted.question }
        ensures { Goes self.now from (whole_tree wanted.kind wanted.question) result }
    {
        let mut walk = Walk {
            path: self.whole_season()?,
            tally: Tally {
                news: 0,
                some_open: false,
            },
        };
        let mut at = from;
        loop {
            let (place, token) = self.next(at)?;
            at = place + 1;
            if self.take_node(place, &token, wanted, &mut walk)? {
                return Ok(at);
            }
        }
    }

    // True if the tree is whole after this line.
    fn take_node(
        &self,
        at: usize,
        token: &Token,
        wanted: TreeSpec,
        walk: &mut Walk,
    ) -> Result<bool, CheckStopAt>
        requires counted { IsTrue (counts token.now) }
        requires question { IsQuestionOf self.now.basis.sheet wanted.question }
        requires path { IsPathFor self.now.basis wanted.question walk.old.path }
        requires few { walk.old.tally.news + 1 < 2 ^ 64 }
        ensures says { NodeSays
            (after self.now.basis (nodes_due wanted walk.old) token.now)
            at (nodes_due wanted walk.new) result }
        ensures path { OnOk result (IsPathFor self.now.basis wanted.question walk.new.path) }
        ensures few { walk.new.tally.news ≤ walk.old.tally.news + 1 }
    {
        match wide_node_of(wanted.kind, token) {
            Some(WideNode::Split { test, fresh }) => self.take_split(at, test, fresh, wanted, walk),
            Some(WideNode::Refuted { reason, fresh }) => {
                self.take_refuted(at, reason, fresh, wanted, walk)
            }
            Some(WideNode::Open) => {
                walk.tally.some_open = true;
                self.leave(at, wanted, walk)
            }
            None => Err(CheckStopAt::BadLine(at)),
        }
    }

    fn take_split(
        &self,
        at: usize,
        test: Test,
        fresh: bool,
        wanted: TreeSpec,
        walk: &mut Walk,
    ) -> Result<bool, CheckStopAt>
        requires path { IsPathFor self.now.basis wanted.question walk.old.path }
        requires few { walk.old.tally.news + 1 < 2 ^ 64 }
        ensures says { NodeSays
            (after_walked self.now.basis wanted walk.old (WideNode.Split test fresh))
            at (nodes_due wanted walk.new) result }
        ensures path { OnOk result (IsPathFor self.now.basis wanted.question walk.new.path) }
        ensures few { walk.new.tally.news ≤ walk.old.tally.news + 1 }
    {
        if !is_test_for(self.sheet, &wanted.question, test) {
            return Err(CheckStopAt::BadLine(at));
        }
        walk.tally = with_fresh(fresh, walk.tally);
        walk.path.go(Literal { test, yes: true })?;
        Ok(false)
    }

    fn take_refuted(
        &self,
        at: usize,
        reason: WideReason,
        fresh: bool,
        wanted: TreeSpec,
        walk: &mut Walk,
    ) -> Result<bool, CheckStopAt>
        requires question { IsQuestionOf self.now.basis.sheet wanted.question }
        requires path { IsPathFor self.now.basis wanted.question walk.old.path }
        requires few { walk.old.tally.news + 1 < 2 ^ 64 }
        ensures says { NodeSays
            (after_walked self.now.basis wanted walk.old (WideNode.Refuted reason fresh))
            at (nodes_due wanted walk.new) result }
        ensures path { OnOk result (IsPathFor self.now.basis wanted.question walk.new.path) }
        ensures few { walk.new.tally.news ≤ walk.old.tally.news + 1 }
    {
        if !may_refute(self.asked.kind, self.sheet, &wanted.question, reason) {
            return Err(CheckStopAt::BadLine(at));
        }
        if !self.has_reason(&wanted.question, &walk.path, reason) {
            return Err(CheckStopAt::NoProof(at));
        }
        walk.tally = with_fresh(fresh, walk.tally);
        self.leave(at, wanted, walk)
    }

    // The reason holds in the zone that is due.
    fn has_reason(&self, question: &Question, path: &Trail, reason: WideReason) -> bool
        requires question { IsQuestionOf self.now.basis.sheet question.now }
        requires path { IsPathFor self.now.basis question.now path.now }
        requires fits { IsTrue (is_wide_reason_for self.now.basis.sheet question.now reason) }
        ensures { result ≡ has_wide_reason self.now.basis.sheet
            self.now.basis.season question.now path.now.zone reason }
    {
        match reason {
            WideReason::Plain(reason) => path.holds(question, reason),
            WideReason::Near(rival) => has_near_on(path, question, rival),
        }
    }

    // Leaves a leaf that proves what it says.
    fn leave(&self, at: usize, wanted: TreeSpec, walk: &mut Walk) -> Result<bool, CheckStopAt>
        requires path { IsPathFor self.now.basis wanted.question walk.old.path }
        ensures says { NodeSays
            (dues.after_leaf self.now.basis wanted.kind wanted.question
            (pending_of walk.old.path.zone) walk.old.tally true)
            at (nodes_due wanted walk.new) result }
        ensures path { OnOk result (IsPathFor self.now.basis wanted.question walk.new.path) }
        ensures same { walk.new.tally ≡ walk.old.tally }
    {
        if next_half(&mut walk.path)? {
            Ok(false)
        } else if is_tally_whole(self.sheet.budget, wanted.kind, walk.tally) {
            Ok(true)
        } else {
            Err(CheckStopAt::NoProof(at))
        }
    }
}

/// What was counted with one node more, which is new or not.
pub fn with_fresh(fresh: bool, tally: Tally) -> Tally
    requires { tally.news + 1 < 2 ^ 64 }
    ensures { result ≡ dues.with_fresh fresh tally }
{
    if fresh {
        Tally {
            news: tally.news + 1,
            some_open: tally.some_open,
        }
    } else {
        tally
    }
}

/// A tree of this kind may end so, with this budget.
pub fn is_tally_whole(budget: u32, kind: TreeKind, tally: Tally) -> bool
    ensures { result ≡ dues.is_tally_whole budget kind tally }
{
    match kind {
        TreeKind::Refutation => true,
        TreeKind::Spent => tally.news == budget as usize && tally.some_open,
    }
}
