//! The verdicts of a pool on which the work is done.

ghost use Rattle.std.specs.Prelude.{◌≡◌, ◌+◌, ◌<◌, IfOk, length};
ghost use Rattle.cert_text.specs.Ranges.{is_in_range};
ghost use Rattle.answer_rows.specs.declared.word.Verdict.{Verdict};
ghost use Rattle.answer_rows.specs.AskedQuestions.{questions_of};
ghost use Rattle.verdict_run.specs.inside.Working.{AreSettled};
ghost use Rattle.answer_rows.specs.Items.{AnswerRow, AreVerdictsOf};
ghost use Rattle.answer_rows.specs.inside.ItemRanges.{AreInRange};
ghost use Rattle.verdict_run.specs.inside.Parts.{AsksBoth, IsAnswered};
ghost use Rattle.verdict_run.specs.inside.Kept.{IsOfPool, AreOfPool};
ghost use Rattle.verdict_run.specs.inside.Verdicts.{AreKnownIfEnough};

use crate::part::{part_of, refuted_at};
use answer_rows::{PartKind, Verdict, Word, joined, word_of};
use branch_pool::Pool;
use league_core::OutOfMemory;
use std::alloc::Global;

/// The verdict of each line and club, in the order of the questions. If the budget was spent on a
/// tree that is not all of this epoch, the question is worked on once more from its root; else each
/// verdict is what the pool keeps.
pub fn verdicts(alloc: Global, pool: &Pool) -> Result<Vec<Verdict>, OutOfMemory>
    requires asked { pool.now.questions ≡ questions_of pool.now.sheet }
    requires settled { AreSettled pool.now }
    ensures answer { IfOk result (λ found.
        AreVerdictsOf pool.now.sheet pool.now.season found.items) }
    ensures in_range { IfOk result (λ found. AreInRange is_in_range pool.now.sheet found.items) }
    ensures enough { IfOk result (λ found.
        AreKnownIfEnough pool.now.sheet pool.now.season found.items) }
    ensures of_pool { IfOk result (λ found. AreOfPool pool.now found.items) }
{
    let mut found = Vec::new(alloc);
    pool.recall_invariant();
    for row in 0..(pool.questions().len() / 2) as u16 {
        found.push(verdict_at(alloc, pool, 2 * row)?)?;
    }
    Ok(found)
}

// The verdict of the two questions at a place and the next one.
fn verdict_at(alloc: Global, pool: &Pool, place: u16) -> Result<Verdict, OutOfMemory>
    requires in_range { place + 1 < length pool.now.questions }
    requires settled { AreSettled pool.now }
    ensures answered { IfOk result (λ verdict. (row : AnswerRow) → AsksBoth pool.now place row
        → IsAnswered pool.now row verdict) }
    ensures of_pool { IfOk result (λ verdict. (row : AnswerRow) → AsksBoth pool.now place row
        → IsOfPool pool.now place verdict) }
{
    pool.recall_invariant();
    let question = pool.questions()[place as usize];
    let (line, club) = (question.line, question.club);
    if let Some(outside) = refuted_at(alloc, pool, place + 1)? {
        let word = Word::Clinched;
        return Ok(Verdict {
            line,
            club,
            word,
            proof: outside.lines,
        });
    }
    let inside = part_of(alloc, pool, place)?;
    if let PartKind::Refuted = inside.kind {
        let word = Word::Lost;
        return Ok(Verdict {
            line,
            club,
            word,
            proof: inside.lines,
        });
    }
    let outside = part_of(alloc, pool, place + 1)?;
    let word = word_of(inside.kind, outside.kind);
    let proof = joined(word, inside, outside)?;
    Ok(Verdict {
        line,
        club,
        word,
        proof,
    })
}
