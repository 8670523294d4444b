//! What comes of work on one question.

use league_core::{Finish, Lots};
use tree_arena::Tree;

/// What is found of a question from its root on. All splits and refuted leaves of the trees are
/// new.
#[derive(Drop)]
pub enum Solved {
    /// A finish and lots at which it holds.
    Won(Finish, Lots),
    /// Each leaf is refuted by a reason that holds.
    Refuted(Tree),
    /// The budget was spent on this tree.
    Spent(Tree),
}
