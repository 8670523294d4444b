//! The lines of proofs: nodes of trees in preorder, and examples.

ghost use Rattle.std.specs.Prelude.{◌≡◌};
ghost use Rattle.cert_text.specs.TreeLines.{marked_line};

use league_core::{Claim, Listing, Reason, Score, Test, TreeNode};

/// Clubs by their numbers from 0, the first in the lots first. It need not name each club.
#[derive(Drop)]
pub struct ClubList {
    pub list: Listing<u8>,
}

/// One line of a proof. Which lines may follow which is the grammar of reports, not kept here.
#[derive(Drop)]
pub enum ProofLine {
    /// A refutation of the claim follows, for the club and line of the row above.
    Tree(Claim),
    /// A tree on which the budget was spent follows.
    Spent(Claim),
    /// The same for the question whether the club can end so with its points in a window.
    SpentWindow { claim: Claim, low: i32, high: i32 },
    /// A split; the half where the test is true follows, then the other.
    Split(Test),
    /// A split that counts as a unit of the budget.
    NewSplit(Test),
    /// A leaf in which the question does not hold.
    Leaf(Reason),
    /// Such a leaf that counts as a unit of the budget.
    NewLeaf(Reason),
    /// A leaf that was not worked on.
    OpenLeaf,
    /// An example of the claim follows: scores, then lots.
    Finish(Claim),
    /// How an unplayed fixture ends, by its number from 0.
    Score { fixture: u16, score: Score },
    /// The lots of an example.
    Lots(ClubList),
}

/// The line of a node in a tree whose new nodes are marked.
pub fn marked_line(node: TreeNode) -> ProofLine
    ensures { result ≡ marked_line node }
{
    match node {
        TreeNode::Split { test, fresh: true } => ProofLine::NewSplit(test),
        TreeNode::Split { test, fresh: false } => ProofLine::Split(test),
        TreeNode::Open | TreeNode::Lent(_) => ProofLine::OpenLeaf,
        TreeNode::Refuted {
            reason,
            fresh: true,
        } => ProofLine::NewLeaf(reason),
        TreeNode::Refuted {
            reason,
            fresh: false,
        } => ProofLine::Leaf(reason),
    }
}
