//! What stands for one question in an answer, and for two.

ghost use Rattle.std.specs.Prelude.{◌≡◌, ◌++◌, IfOk, IsTrue};
ghost use Rattle.league_core.specs.game.Results.{are_results};
ghost use Rattle.league_core.specs.game.Seasons.{IsLeague};
ghost use Rattle.league_core.specs.game.Questions.{IsExample};
ghost use Rattle.cert_text.specs.TreeLines.{IsRefutationTree};
ghost use Rattle.cert_text.specs.TreeLines.{plain_lines, marked_lines};
ghost use Rattle.cert_text.specs.TreeLines.{with_tree_head, with_spent_head};
ghost use Rattle.cert_text.specs.ExampleLines as shown;
ghost use Rattle.answer_rows.specs.inside.AnswerParts.{IsAnswerPart, word_by, proof_by};

use crate::proof_lines::{example_lines, refutation_lines, spent_lines};
use crate::word::Word;
use cert_text::ProofLine;
use league_core::{Finish, Lots, OutOfMemory, Question, Season, Sheet};
use std::alloc::Global;
use tree_arena::Tree;

/// What the lines of a part show.
#[derive(Clone, Copy)]
pub enum PartKind {
    /// An example.
    Won,
    /// That there is none.
    Refuted,
    /// That the budget was spent before this was known.
    Spent,
}

/// The lines that stand for a question in an answer, and what they show.
#[derive(Drop)]
pub struct Part<L = ProofLine> {
    pub kind: PartKind,
    pub lines: Vec<L>,
}

impl Part<ProofLine> {
    /// The part of an example, which is shown by its lines.
    pub fn won(
        alloc: Global,
        sheet: &Sheet,
        season: &Season,
        question: &Question,
        finish: &Finish,
        lots: &Lots,
    ) -> Result<Part, OutOfMemory>
        requires league { IsLeague sheet.now season.now }
        requires results { IsTrue (are_results season.now) }
        requires example { IsExample sheet.now season.now question.now finish.now lots.now }
        ensures part { IfOk result (IsAnswerPart sheet.now season.now question.now) }
        ensures kind { IfOk result (λ part. part.kind ≡ PartKind.Won) }
        ensures lines { IfOk result (λ part. part.lines.items
            ≡ shown.example_lines question.now.claim season.now finish.now lots.now) }
    {
        let lines = example_lines(alloc, season, question.claim, finish, lots)?;
        let kind = PartKind::Won;
        Ok(Part { kind, lines })
    }

    /// The part of a tree that refutes the question.
    pub fn refuted(
        alloc: Global,
        sheet: &Sheet,
        season: &Season,
        question: &Question,
        tree: &Tree,
    ) -> Result<Part, OutOfMemory>
        requires { IsRefutationTree sheet.now season.now question.now tree.now }
        ensures part { IfOk result (IsAnswerPart sheet.now season.now question.now) }
        ensures kind { IfOk result (λ part. part.kind ≡ PartKind.Refuted) }
        ensures lines { IfOk result (λ part. part.lines.items
            ≡ with_tree_head question.now.claim (plain_lines tree.now)) }
    {
        let lines = refutation_lines(alloc, question.claim, tree)?;
        let kind = PartKind::Refuted;
        Ok(Part { kind, lines })
    }

    /// The part of a tree on which the budget was spent.
    pub fn spent(alloc: Global, question: &Question, tree: &Tree) -> Result<Part, OutOfMemory>
        ensures kind { IfOk result (λ part. part.kind ≡ PartKind.Spent) }
        ensures lines { IfOk result (λ part. part.lines.items
            ≡ with_spent_head question.now.claim (marked_lines tree.now)) }
    {
        let nodes = tree.nodes()?;
        let lines = spent_lines(alloc, question.claim, nodes.as_slice())?;
        let kind = PartKind::Spent;
        Ok(Part { kind, lines })
    }
}

/// The word, by what the parts of `Inside` and of `Outside` show.
pub fn word_of(inside: PartKind, outside: PartKind) -> Word
    ensures { result ≡ word_by inside outside }
{
    match (inside, outside) {
        (PartKind::Refuted, _) => Word::Lost,
        (_, PartKind::Refuted) => Word::Clinched,
        (PartKind::Won, PartKind::Won) => Word::Possible,
        _ => Word::Unsettled,
    }
}

/// The lines after the word, out of those of the two parts.
pub fn joined<L: Drop>(word: Word, inside: Part<L>, outside: Part<L>) -> Result<Vec<L>, OutOfMemory>
    ensures { IfOk result (λ lines. lines.items
        ≡ proof_by word inside.lines.items outside.lines.items) }
{
    match word {
        Word::Clinched => Ok(outside.lines),
        Word::Lost => Ok(inside.lines),
        Word::Possible | Word::Unsettled => append(inside.lines, outside.lines),
    }
}

/// Some lines, and then others.
pub fn append<L: Drop>(mut lines: Vec<L>, more: Vec<L>) -> Result<Vec<L>, OutOfMemory>
    ensures { IfOk result (λ all. all.items ≡ lines.items ++ more.items) }
{
    for line in more {
        lines.push(line)?;
    }
    Ok(lines)
}
