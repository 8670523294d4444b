//! What a row and a head leave due of an item, by the grammar.

ghost use Rattle.std.specs.Prelude.{◌≡◌, None, Some, drop, if◌then◌else◌};
ghost use Rattle.league_core.specs.declared.question.Claim.TheVariants.{Inside, Outside};
ghost use Rattle.cert_check.specs.ExpectedItems.{Basis, after_both_parts, after_finish_head};
ghost use Rattle.cert_check.specs.ExpectedItems.{after_one_part, after_spent_head, after_tree_head};
ghost use Rattle.cert_check.specs.ExpectedItems.{promised};
ghost use Rattle.cert_check.specs.ExpectedItems as dues;
ghost use Rattle.par_check.specs.declared.item_due.DueAfter.TheVariants.{Nothing};
ghost use Rattle.par_check.specs.Shapes.{shape_of, shape_of_scores, shapes_in, some_nodes};
ghost use Rattle.par_check.specs.Outlines.{question_of, shape_in, shapes_left};

use crate::item_due::{DueAfter, ItemDue, ItemRow, TreeDue};
use cert_check::{Head, Report};
use league_core::Claim;
use line_tokens::{RowWord, TreeKind};

/// Behind the row of an item, if it has a word.
pub fn behind_word(word: Option<RowWord>) -> Option<DueAfter>
    ensures { (basis : Basis) (row : ItemRow) → shapes_left basis row result
        ≡ shapes_in (promised row.line row.club word) }
{
    match word {
        Some(RowWord::Clinched) => Some(DueAfter::One(ItemDue::TreeHead(Claim::Outside))),
        Some(RowWord::Lost) => Some(DueAfter::One(ItemDue::TreeHead(Claim::Inside))),
        Some(RowWord::Possible) => Some(DueAfter::Two(
            ItemDue::FinishHead(Claim::Inside),
            ItemDue::FinishHead(Claim::Outside),
        )),
        Some(RowWord::Unsettled) => Some(DueAfter::One(ItemDue::BothParts)),
        None => None,
    }
}

/// Behind the head of a refutation.
pub fn behind_tree(head: Option<Head>, claim: Claim) -> Option<DueAfter>
    ensures { (basis : Basis) (row : ItemRow) → shapes_left basis row result
        ≡ shapes_in (after_tree_head (question_of row claim) head) }
{
    match head {
        Some(Head::RefutedTree) => Some(DueAfter::One(whole_tree(TreeKind::Refutation, claim))),
        Some(Head::SpentTree) => None,
        Some(Head::Example) => None,
        None => None,
    }
}

/// Behind the head of a spent tree.
pub fn behind_spent(head: Option<Head>, claim: Claim) -> Option<DueAfter>
    ensures { (basis : Basis) (row : ItemRow) → shapes_left basis row result
        ≡ shapes_in (after_spent_head (question_of row claim) head) }
{
    match head {
        Some(Head::RefutedTree) => None,
        Some(Head::SpentTree) => Some(DueAfter::One(whole_tree(TreeKind::Spent, claim))),
        Some(Head::Example) => None,
        None => None,
    }
}

/// Behind the head of an example.
pub fn behind_finish(report: &Report, head: Option<Head>, claim: Claim) -> Option<DueAfter>
    ensures { (row : ItemRow) → shapes_left report.now.basis row result
        ≡ shapes_in (after_finish_head report.now.basis (question_of row claim) head) }
{
    match head {
        Some(Head::RefutedTree) => None,
        Some(Head::SpentTree) => None,
        Some(Head::Example) => Some(DueAfter::One(whole_example(report, claim))),
        None => None,
    }
}

/// Behind the head of a spent tree or of an example.
pub fn behind_one(report: &Report, head: Option<Head>, claim: Claim) -> Option<DueAfter>
    ensures { (row : ItemRow) → shapes_left report.now.basis row result
        ≡ shapes_in (after_one_part report.now.basis (question_of row claim) head) }
{
    match head {
        Some(Head::RefutedTree) => None,
        Some(Head::SpentTree) => Some(DueAfter::One(whole_tree(TreeKind::Spent, claim))),
        Some(Head::Example) => Some(DueAfter::One(whole_example(report, claim))),
        None => None,
    }
}

/// Behind the first head after the row of an unsettled club.
pub fn behind_both(report: &Report, head: Option<Head>) -> Option<DueAfter>
    ensures { (row : ItemRow) → shapes_left report.now.basis row result
        ≡ shapes_in (after_both_parts report.now.basis (question_of row Inside)
        (question_of row Outside) head) }
{
    match head {
        Some(Head::RefutedTree) => None,
        Some(Head::SpentTree) => Some(DueAfter::Two(
            whole_tree(TreeKind::Spent, Claim::Inside),
            ItemDue::OnePart(Claim::Outside),
        )),
        Some(Head::Example) => Some(DueAfter::Two(
            whole_example(report, Claim::Inside),
            ItemDue::SpentHead(Claim::Outside),
        )),
        None => None,
    }
}

/// Behind the lots, if they are some.
pub fn behind_lots(drawn: bool) -> Option<DueAfter>
    ensures { result ≡ (if drawn then Some Nothing else None) }
{
    if drawn { Some(DueAfter::Nothing) } else { None }
}

fn whole_tree(kind: TreeKind, claim: Claim) -> ItemDue
    ensures { (basis : Basis) (row : ItemRow)
        → shape_in basis row result ≡ some_nodes kind (question_of row claim) 0 }
{
    ItemDue::Nodes(TreeDue {
        kind,
        claim,
        behind: 0,
    })
}

fn whole_example(report: &Report, claim: Claim) -> ItemDue
    ensures { (row : ItemRow) → shape_in report.now.basis row result
        ≡ shape_of (dues.whole_example report.now.basis (question_of row claim)) }
{
    next_score(report, claim, 0)
}

/// The score of the next fixture, from one on, for which the season has none, or the lots.
pub fn next_score(report: &Report, claim: Claim, from: u32) -> ItemDue
    ensures { (row : ItemRow) → shape_in report.now.basis row result
        ≡ shape_of_scores (question_of row claim) from
        (drop from report.now.basis.season.scores) }
{
    for it in from..u32::from(report.fixtures()) {
        let fixture = it as u16;
        if report.season().score(fixture).is_none() {
            return ItemDue::Score { claim, fixture };
        }
    }
    ItemDue::Lots(claim)
}
