//! A saved text as far as it is read.

ghost use Rattle.std.specs.Prelude.{◌≡◌, ◌<◌, ◌≤◌, ◌++◌, ◌∷◌, [], List, Some, All, IsTrue};
ghost use Rattle.std.specs.Prelude.{IfOk, OnOk, is_some, length, drop};
ghost use Rattle.std.specs.List.{slice_get};
ghost use Rattle.league_core.specs.game.Sheets.{IsWithinLimits};
ghost use Rattle.league_core.specs.game.Questions.{IsQuestionOf};
ghost use Rattle.league_core.specs.game.ClubSets.{clubs_in};
ghost use Rattle.league_core.specs.declared.question.Question.{Question};
ghost use Rattle.league_core.specs.search.TreeLists.{tree_of};
ghost use Rattle.tree_arena.specs.inside.Calls.{most_nodes};
ghost use Rattle.pool_save.specs.SavedReadings.{nothing_saved, save_taken, row_taken};
ghost use Rattle.pool_save.specs.SavedReadings.{item_begun, node_taken_if, question_due};
ghost use Rattle.pool_save.specs.SavedReadings.{filled_places, goes_on, leaf_taken};
ghost use Rattle.pool_save.specs.inside.SoFar.{save_step_of, IsSaveState};

use crate::rivals::{may_split, with_rival};
use crate::row::{is_end_row, is_row_of};
use crate::taken::Taken;
use fixture_sheet::Fields;
use league_core::{ClubSet, OutOfMemory, Question, Sheet, TreeNode};
use line_tokens::{Token, TreeKind, is_reason_for, node_of};
use std::alloc::Global;
use std::marker::Model;
use tree_arena::Tree;

/// The trees that are read, one place a question, and the tree that is being read: its nodes, and
/// for each part that must come yet, the next one last, the rivals asked on the way there.
#[derive(Drop)]
pub struct SavedSoFar {
    pub trees: Vec<Option<Tree>>,
    nodes: Vec<TreeNode>,
    due: Vec<ClubSet>,
}

impl Model for SavedSoFar {
    ghost use Rattle.std.specs.Prelude.{map, reverse};
    ghost use Rattle.league_core.specs.game.ClubSets.{clubs_in};
    ghost use Rattle.pool_save.specs.SavedReadings.{SaveState};
    ghost use Rattle.std.specs.Coded.{codes};
    ghost use Rattle.league_core.specs.search.TreeLists.{coded_tree};
    ghost use Rattle.league_core.specs.contracts.tree.TreeNode as node;

    ghost Value = { SaveState };

    ghost coded = { Prim.hlevel (codes, coded_tree, node.the_row.coded) };

    ghost view = { λ held. record {
      trees = held.trees.items;
      nodes = held.nodes.items;
      due = reverse (map clubs_in held.due.items);
    } };
}

impl SavedSoFar {
    /// Nothing is read.
    pub fn begin(alloc: Global) -> SavedSoFar
        ensures { result ≡ nothing_saved }
    {
        SavedSoFar {
            trees: Vec::new(alloc),
            nodes: Vec::new(alloc),
            due: Vec::new(alloc),
        }
    }

    /// Takes a line. After a bad one nothing is said of what is read.
    pub fn take(
        &mut self,
        alloc: Global,
        sheet: &Sheet,
        asked: &[Question],
        token: &Token,
    ) -> Result<Taken, OutOfMemory>
        requires limits { IsWithinLimits sheet.now }
        requires questions { All (IsQuestionOf sheet.now) asked.now }
        requires sound { IsSaveState sheet.now asked.now self.old }
        requires few { length self.old.nodes < most_nodes }
        ensures { IfOk result (λ taken.
            save_step_of self.new taken ≡ save_taken sheet.now asked.now self.old token.now) }
    {
        match token {
            Token::Blank => Ok(Taken::On),
            Token::Row(fields) => self.take_row(alloc, sheet, asked, fields),
            Token::Proof(_) => match node_of(TreeKind::Spent, token) {
                Some(node) => self.take_node(alloc, sheet, asked, node),
                None => Ok(Taken::Bad),
            },
            Token::Near { .. } => Ok(Taken::Bad),
            Token::Unknown => Ok(Taken::Bad),
        }
    }

    fn take_row(
        &mut self,
        alloc: Global,
        sheet: &Sheet,
        asked: &[Question],
        fields: &Fields,
    ) -> Result<Taken, OutOfMemory>
        requires questions { All (IsQuestionOf sheet.now) asked.now }
        requires sound { IsSaveState sheet.now asked.now self.old }
        ensures { IfOk result (λ taken. save_step_of self.new taken
            ≡ row_taken sheet.now asked.now self.old.trees fields.now self.old.due) }
    {
        if let Some(_) = self.due.pop() {
            return Ok(Taken::Bad);
        }
        if is_end_row(fields) {
            self.fill(asked.len())?;
            return Ok(Taken::Whole);
        }
        self.begin_item(alloc, sheet, asked, fields)
    }

    // The questions that are left have no item.
    fn fill(&mut self, places: usize) -> Result<(), OutOfMemory>
        ensures { (asked : List Question) → length asked ≡ places
            → OnOk result (self.new.trees ≡ filled_places asked self.old.trees) }
    {
        while self.trees.len() < places {
            self.trees.push(None)?;
        }
        Ok(())
    }

    // An item begins: it is that of the first question left that has this row.
    fn begin_item(
        &mut self,
        alloc: Global,
        sheet: &Sheet,
        asked: &[Question],
        fields: &Fields,
    ) -> Result<Taken, OutOfMemory>
        requires questions { All (IsQuestionOf sheet.now) asked.now }
        requires none { self.old.due ≡ [] }
        requires no_nodes { self.old.nodes ≡ [] }
        ensures { IfOk result (λ taken. save_step_of self.new taken
            ≡ item_begun sheet.now (drop (length self.old.trees) asked.now) self.old.trees
            fields.now) }
    {
        while self.trees.len() < asked.len() {
            if is_row_of(alloc, sheet, &asked[self.trees.len()], fields)? {
                self.due.push(ClubSet::empty())?;
                return Ok(Taken::On);
            }
            self.trees.push(None)?;
        }
        Ok(Taken::Bad)
    }

    /// Takes a node of the tree of the next question. After a bad one nothing is said of what is
    /// read.
    pub fn take_node(
        &mut self,
        alloc: Global,
        sheet: &Sheet,
        asked: &[Question],
        node: TreeNode,
    ) -> Result<Taken, OutOfMemory>
        requires limits { IsWithinLimits sheet.now }
        requires questions { All (IsQuestionOf sheet.now) asked.now }
        requires sound { IsSaveState sheet.now asked.now self.old }
        requires few { length self.old.nodes < most_nodes }
        ensures { IfOk result (λ taken. save_step_of self.new taken
            ≡ node_taken_if sheet.now (question_due asked.now self.old) self.old (Some node)) }
    {
        let Some(rivals) = self.due.pop() else {
            return Ok(Taken::Bad);
        };
        let question = &question_at(asked, self.trees.len());
        match node {
            TreeNode::Split { test, fresh: _ } => {
                if !may_split(sheet, question, rivals, test) {
                    return Ok(Taken::Bad);
                }
                self.split(node, with_rival(rivals, test))
            }
            TreeNode::Refuted { reason, fresh: _ } => {
                if !is_reason_for(sheet, question, reason) {
                    return Ok(Taken::Bad);
                }
                self.leave(alloc, node)
            }
            TreeNode::Open => self.leave(alloc, node),
            TreeNode::Lent(_) => Ok(Taken::Bad),
        }
    }

    // A split comes for the part that was next: two parts come in its place.
    fn split(&mut self, node: TreeNode, rivals: ClubSet) -> Result<Taken, OutOfMemory>
        ensures { IfOk result (λ taken. save_step_of self.new taken ≡ goes_on (record self.old {
          nodes = self.old.nodes ++ node ∷ [];
          due = clubs_in rivals ∷ clubs_in rivals ∷ self.old.due;
        })) }
    {
        self.nodes.push(node)?;
        self.due.push(rivals)?;
        self.due.push(rivals)?;
        Ok(Taken::On)
    }

    // A leaf comes for the part that was next; the tree is read, if it was the last.
    fn leave(&mut self, alloc: Global, node: TreeNode) -> Result<Taken, OutOfMemory>
        requires tree { self.old.due ≡ []
            → IsTrue (is_some (tree_of (self.old.nodes ++ node ∷ []))) }
        requires few { length self.old.nodes < most_nodes }
        ensures { IfOk result (λ taken.
            save_step_of self.new taken ≡ goes_on (leaf_taken self.old node self.old.due)) }
    {
        self.nodes.push(node)?;
        if self.due.is_empty() {
            self.end_tree(alloc)?;
        }
        Ok(Taken::On)
    }

    // The tree is read: it stands at the place of its question, and no node is left.
    #[inline(never)]
    fn end_tree(&mut self, alloc: Global) -> Result<(), OutOfMemory>
        requires tree { IsTrue (is_some (tree_of self.old.nodes)) }
        requires few { length self.old.nodes ≤ most_nodes }
        ensures { OnOk result (self.new ≡ record self.old {
          trees = self.old.trees ++ tree_of self.old.nodes ∷ [];
          nodes = [];
        }) }
    {
        let tree = tree_of(alloc, self.nodes.as_slice())?;
        self.nodes.clear();
        self.trees.push(Some(tree))?;
        Ok(())
    }
}

fn question_at(asked: &[Question], place: usize) -> Question
    requires in_range { place < length asked.now }
    ensures { slice_get asked.now place ≡ Some result }
{
    asked[place]
}

// The tree of these nodes.
fn tree_of(alloc: Global, nodes: &[TreeNode]) -> Result<Tree, OutOfMemory>
    requires some { IsTrue (is_some (tree_of nodes.now)) }
    requires few { length nodes.now ≤ most_nodes }
    ensures { IfOk result (λ tree. tree_of nodes.now ≡ Some tree) }
{
    Tree::of_preorder(alloc, nodes)
}
