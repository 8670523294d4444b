//! Trees about a group in a report, node by node.

ghost use Rattle.std.specs.Prelude.{◌≡◌, ◌<◌, ◌≤◌, ◌+◌, ◌^◌, ℕ, IsTrue, OnOk, IfOk, length};
ghost use Rattle.cert_check.specs.inside.Goes.{NodeSays};
ghost use Rattle.cup_groups.specs.inside.KindQuestions.{group_question_of};
ghost use Rattle.cup_grammar.specs.CupDues.{whole_group_tree};
ghost use Rattle.cup_grammar.specs.CupExpected.{after_in_cup};
ghost use Rattle.cup_grammar.specs.inside.CupParts.{is_token_in_range};
ghost use Rattle.cup_grammar.specs.inside.CupRowTruths.{counts_in_cup};
ghost use Rattle.cup_check.specs.inside.CupGoes.{GoesInCup, IsNextInCup};
ghost use Rattle.cup_check.specs.inside.CupTreeCalls.{GoesOverNode, IsPathInGroup};
ghost use Rattle.cup_check.specs.inside.CupTreeCalls.{group_nodes_due};

use crate::place::GroupPlace;
use crate::report::CupReport;
use crate::walk::{GroupTreeSpec, GroupWalk};
use cert_check::CheckStopAt;
use cup_grammar::CupToken;

impl<'a> CupReport<'a> {
    /// The nodes of a tree about a group from its root on.
    pub fn tree(
        &self,
        from: usize,
        group: &GroupPlace,
        wanted: GroupTreeSpec,
    ) -> Result<usize, CheckStopAt>
        requires room { from ≤ length self.now.tokens }
        requires in_range { wanted.question.club < length group.now.sheet.clubs }
        ensures { GoesInCup self.now from (whole_group_tree wanted.kind group.now
            (group_question_of wanted.question)) result }
    {
        let mut walk = group.walk(self.alloc)?;
        self.nodes(from, group, wanted, &mut walk)
    }

    // The nodes that are due when the reading of a tree stands so.
    fn nodes(
        &self,
        from: usize,
        group: &GroupPlace,
        wanted: GroupTreeSpec,
        walk: &mut GroupWalk,
    ) -> Result<usize, CheckStopAt>
        requires room { from ≤ length self.now.tokens }
        requires in_range { wanted.question.club < length group.now.sheet.clubs }
        requires path { IsPathInGroup group.now wanted walk.old.path }
        requires few { walk.old.tally.news ≤ from }
        ensures { GoesInCup self.now from (group_nodes_due group.now wanted walk.old) result }
    {
        let mut at = from;
        loop {
            let (next, ended) = self.next_node(at, group, wanted, walk)?;
            if ended {
                return Ok(next);
            }
            at = next;
        }
    }

    // Goes on over one node: true if the tree is whole after it.
    fn next_node(
        &self,
        from: usize,
        group: &GroupPlace,
        wanted: GroupTreeSpec,
        walk: &mut GroupWalk,
    ) -> Result<(usize, bool), CheckStopAt>
        requires room { from ≤ length self.now.tokens }
        requires in_range { wanted.question.club < length group.now.sheet.clubs }
        requires path { IsPathInGroup group.now wanted walk.old.path }
        requires few { walk.old.tally.news ≤ from }
        ensures goes { GoesOverNode self.now from (group_nodes_due group.now wanted walk.old)
            (group_nodes_due group.now wanted walk.new) result }
        ensures path { OnOk result (IsPathInGroup group.now wanted walk.new.path) }
        ensures few { IfOk result (λ found. walk.new.tally.news ≤ found.0) }
    {
        let (at, token) = self.next(from)?;
        self.node_line(at, &token, group, wanted, walk)
    }

    // A node in a line that counts.
    fn node_line(
        &self,
        at: usize,
        token: &CupToken,
        group: &GroupPlace,
        wanted: GroupTreeSpec,
        walk: &mut GroupWalk,
    ) -> Result<(usize, bool), CheckStopAt>
        requires room { at + 1 < 2 ^ 64 }
        requires counted { IsTrue (counts_in_cup token.now) }
        requires ranges { IsTrue (is_token_in_range token.now) }
        requires in_range { wanted.question.club < length group.now.sheet.clubs }
        requires path { IsPathInGroup group.now wanted walk.old.path }
        requires few { walk.old.tally.news ≤ at }
        ensures goes { (from : ℕ) → IsNextInCup self.now from at token.now → GoesOverNode self.now
            from (group_nodes_due group.now wanted walk.old)
            (group_nodes_due group.now wanted walk.new) result }
        ensures path { OnOk result (IsPathInGroup group.now wanted walk.new.path) }
        ensures few { IfOk result (λ found. walk.new.tally.news ≤ found.0) }
    {
        let ended = self.take_node(at, token, group, wanted, walk)?;
        Ok((at + 1, ended))
    }

    // True if the tree is whole after this line.
    fn take_node(
        &self,
        at: usize,
        token: &CupToken,
        group: &GroupPlace,
        wanted: GroupTreeSpec,
        walk: &mut GroupWalk,
    ) -> Result<bool, CheckStopAt>
        requires counted { IsTrue (counts_in_cup token.now) }
        requires ranges { IsTrue (is_token_in_range token.now) }
        requires in_range { wanted.question.club < length group.now.sheet.clubs }
        requires path { IsPathInGroup group.now wanted walk.old.path }
        requires few { walk.old.tally.news + 1 < 2 ^ 64 }
        ensures says { NodeSays
            (after_in_cup self.now.basis (group_nodes_due group.now wanted walk.old) token.now)
            at (group_nodes_due group.now wanted walk.new) result }
        ensures path { OnOk result (IsPathInGroup group.now wanted walk.new.path) }
        ensures few { walk.new.tally.news ≤ walk.old.tally.news + 1 }
    {
        match token {
            CupToken::Proof(line) => match group.own_node(self.alloc, wanted.kind, line)? {
                Some(node) => group.take(at, node, wanted, walk),
                None => Err(CheckStopAt::BadLine(at)),
            },
            _ => Err(CheckStopAt::BadLine(at)),
        }
    }
}
