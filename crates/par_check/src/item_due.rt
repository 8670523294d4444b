//! What the grammar remembers of what is due in an item.

use league_core::Claim;
use line_tokens::TreeKind;

/// The line and the club of an item.
#[derive(Clone, Copy)]
pub struct ItemRow {
    pub line: u8,
    pub club: u8,
}

/// What is due in an item: its row; a head; the nodes of a tree with so many zones behind the one
/// that is due; the score of a fixture; the lots.
#[derive(Clone, Copy)]
pub enum ItemDue {
    Row,
    TreeHead(Claim),
    SpentHead(Claim),
    FinishHead(Claim),
    BothParts,
    OnePart(Claim),
    Nodes(TreeDue),
    Score { claim: Claim, fixture: u16 },
    Lots(Claim),
}

/// A tree of this kind, for the question of this claim, with so many zones behind the one whose
/// node is due.
#[derive(Clone, Copy)]
pub struct TreeDue {
    pub kind: TreeKind,
    pub claim: Claim,
    pub behind: usize,
}

/// What a line leaves due in the place of what was.
#[derive(Clone, Copy)]
pub enum DueAfter {
    Nothing,
    One(ItemDue),
    Two(ItemDue, ItemDue),
}
