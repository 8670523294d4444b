//! Lines about a group, by the group's own numbers.

ghost use Rattle.std.specs.Prelude.{◌≡◌, IfOk, IsTrue, option_map};
ghost use Rattle.cup_sheet.specs.CupLimits.{most_cup_clubs};
ghost use Rattle.cup_text.specs.CupRanges.{is_cup_leaf, is_cup_line, is_cup_reason};
ghost use Rattle.cup_text.specs.CupRanges.{is_rising_below};
ghost use Rattle.cup_grammar.specs.PlacedGroups.{own_leaf, own_node, own_reason, own_set};
ghost use Rattle.cup_grammar.specs.PlacedGroups.{refuted_node, split_node};
ghost use Rattle.cup_check.specs.inside.CupTreeCalls.{node_seen, own_numbers};

use crate::place::GroupPlace;
use cert_text::places::set_of;
use cup_sheet::GroupReason;
use cup_text::{CupLeaf, CupLine, CupReason};
use league_core::{ClubSet, OutOfMemory, Reason, Test};
use line_tokens::TreeKind;
use std::alloc::Global;

/// A node of a tree about a group, by the group's own numbers.
#[derive(Clone, Copy)]
pub enum GroupNode {
    Split { test: Test, fresh: bool },
    Refuted { reason: GroupReason, fresh: bool },
    Open,
}

impl<'a> GroupPlace<'a> {
    // The clubs of a cut as a set, if all are of the group.
    fn own_set(&self, alloc: Global, clubs: &[u8]) -> Result<Option<ClubSet>, OutOfMemory>
        requires { IsTrue (is_rising_below most_cup_clubs clubs.now) }
        ensures { IfOk result (λ found. found ≡ own_set self.now clubs.now) }
    {
        self.recall_place();
        match self.own_clubs(alloc, clubs)? {
            Some(own) => Ok(set_of(own.as_slice())),
            None => Ok(None),
        }
    }

    // Clubs by their numbers in the group, if all are of it.
    fn own_clubs(&self, alloc: Global, clubs: &[u8]) -> Result<Option<Vec<u8>>, OutOfMemory>
        ensures { IfOk result (λ found. option_map (λ own. own.items) found
            ≡ own_numbers self.now clubs.now) }
    {
        let mut own = Vec::new(alloc);
        for club in clubs {
            if !self.has_club(*club) {
                return Ok(None);
            }
            own.push(self.own_club(*club))?;
        }
        Ok(Some(own))
    }

    fn own_reason(&self, alloc: Global, reason: &CupReason) -> Result<Option<Reason>, OutOfMemory>
        requires { IsTrue (is_cup_reason reason.now) }
        ensures { IfOk result (λ found. found ≡ own_reason self.now reason.now) }
    {
        match reason {
            CupReason::Count => Ok(Some(Reason::Count)),
            CupReason::Window => Ok(Some(Reason::Window)),
            CupReason::Low(cut) => {
                let set = self.own_set(alloc, cut.list.as_slice())?;
                Ok(set.map(|it| Reason::Low(it)))
            }
            CupReason::High(cut) => {
                let set = self.own_set(alloc, cut.list.as_slice())?;
                Ok(set.map(|it| Reason::High(it)))
            }
            CupReason::Tie => Ok(Some(Reason::Tie)),
        }
    }

    fn own_leaf(&self, alloc: Global, leaf: &CupLeaf) -> Result<Option<GroupReason>, OutOfMemory>
        requires { IsTrue (is_cup_leaf leaf.now) }
        ensures { IfOk result (λ found. found ≡ own_leaf self.now leaf.now) }
    {
        match leaf {
            CupLeaf::Plain(reason) => {
                let own = self.own_reason(alloc, reason)?;
                Ok(own.map(|it| GroupReason::Plain(it)))
            }
            CupLeaf::In(reason) => {
                let own = self.own_reason(alloc, reason)?;
                Ok(own.map(|it| GroupReason::In(it)))
            }
            CupLeaf::Out(reason) => {
                let own = self.own_reason(alloc, reason)?;
                Ok(own.map(|it| GroupReason::Out(it)))
            }
            CupLeaf::ByKey => Ok(Some(GroupReason::ByKey)),
        }
    }

    /// The node that a line stands for, if a tree of this kind about the group has such a line.
    pub fn own_node(
        &self,
        alloc: Global,
        kind: TreeKind,
        line: &CupLine,
    ) -> Result<Option<GroupNode>, OutOfMemory>
        requires { IsTrue (is_cup_line line.now) }
        ensures { IfOk result (λ found. option_map node_seen found
            ≡ own_node kind self.now line.now) }
    {
        match kind {
            TreeKind::Refutation => self.plain_node(alloc, line),
            TreeKind::Spent => self.spent_node(alloc, line),
        }
    }

    // A node of a refutation.
    fn plain_node(&self, alloc: Global, line: &CupLine) -> Result<Option<GroupNode>, OutOfMemory>
        requires { IsTrue (is_cup_line line.now) }
        ensures { IfOk result (λ found. option_map node_seen found
            ≡ own_node TreeKind.Refutation self.now line.now) }
    {
        match line {
            CupLine::Split(test) => Ok(split_if(self.own_test(*test), false)),
            CupLine::Leaf(leaf) => Ok(leaf_if(self.own_leaf(alloc, leaf)?, false)),
            _ => Ok(None),
        }
    }

    // A node of a tree on which the budget was spent.
    fn spent_node(&self, alloc: Global, line: &CupLine) -> Result<Option<GroupNode>, OutOfMemory>
        requires { IsTrue (is_cup_line line.now) }
        ensures { IfOk result (λ found. option_map node_seen found
            ≡ own_node TreeKind.Spent self.now line.now) }
    {
        match line {
            CupLine::Split(test) => Ok(split_if(self.own_test(*test), false)),
            CupLine::Leaf(leaf) => Ok(leaf_if(self.own_leaf(alloc, leaf)?, false)),
            CupLine::NewSplit(test) => Ok(split_if(self.own_test(*test), true)),
            CupLine::NewLeaf(leaf) => Ok(leaf_if(self.own_leaf(alloc, leaf)?, true)),
            CupLine::OpenLeaf => Ok(Some(GroupNode::Open)),
            _ => Ok(None),
        }
    }
}

fn split_if(test: Option<Test>, fresh: bool) -> Option<GroupNode>
    ensures { option_map node_seen result ≡ option_map (λ it. split_node it fresh) test }
{
    Some(GroupNode::Split { test: test?, fresh })
}

fn leaf_if(reason: Option<GroupReason>, fresh: bool) -> Option<GroupNode>
    ensures { option_map node_seen result ≡ option_map (λ it. refuted_node it fresh) reason }
{
    Some(GroupNode::Refuted {
        reason: reason?,
        fresh,
    })
}
