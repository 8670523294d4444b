//! The lines of an item, as a saved text has them.

ghost use Rattle.std.specs.Prelude.{◌≡◌, ◌<◌, IfOk, length};
ghost use Rattle.cert_text.specs.Lines.{claim_word};
ghost use Rattle.cert_text.specs.TreeLines.{marked_lines};
ghost use Rattle.pool_save.specs.SavedItems.{item_row};

use answer_rows::{club_name, number_field, spent_lines, text_field};
use cert_text::{ProofLine, write_row};
use league_core::{Claim, OutOfMemory, Question, Sheet};
use std::alloc::Global;
use tree_reuse::Tree;

/// The row of the item of a question: `saved,K,CLUB,CLAIM`.
pub fn item_row(alloc: Global, sheet: &Sheet, question: &Question) -> Result<Vec<u8>, OutOfMemory>
    requires in_range { question.now.club < length sheet.now.clubs }
    ensures { IfOk result (λ row. row.items ≡ item_row sheet.now question.now) }
{
    let fields = [
        text_field(alloc, "saved")?,
        number_field(alloc, u64::from(question.line))?,
        text_field(alloc, club_name(sheet, question.club))?,
        text_field(alloc, claim_word(question.claim))?,
    ];
    write_row(alloc, &fields)
}

fn claim_word(claim: Claim) -> &'static str
    ensures { result.now ≡ claim_word claim }
{
    match claim {
        Claim::Inside => "inside",
        Claim::Outside => "outside",
    }
}

/// The lines after the row: the nodes of the tree, the new ones marked.
pub fn item_lines(alloc: Global, tree: &Tree) -> Result<Vec<ProofLine>, OutOfMemory>
    ensures { IfOk result (λ lines. lines.items ≡ marked_lines tree.now) }
{
    let nodes = tree.nodes()?;
    let mut lines = spent_lines(alloc, Claim::Inside, nodes.as_slice())?;
    // A saved tree has no head: the row says which question it is of.
    lines.remove(0);
    Ok(lines)
}
