//! Saved texts of an input.

ghost use Rattle.std.specs.Prelude.{◌≡◌, ◌<◌, ◌≤◌, ◌+◌, All, IfOk, length, Option};
ghost use Rattle.league_core.specs.game.Sheets.{IsWithinLimits};
ghost use Rattle.league_core.specs.game.Questions.{IsQuestionOf};
ghost use Rattle.port_core.specs.Contents.{Contents};
ghost use Rattle.port_core.specs.Readers.{TakesInput, contents_to_come};
ghost use Rattle.tree_arena.specs.inside.Calls.{most_nodes};
ghost use Rattle.fixture_sheet.specs.inside.Calls.{PassesUpTo};
ghost use Rattle.line_tokens.specs.Tokens.{token_of};
ghost use Rattle.answer_rows.specs.AskedQuestions.{questions_of};
ghost use Rattle.pool_save.specs.SavedTexts.{AreAskedTrees, AreSavedTrees};
ghost use Rattle.pool_save.specs.SavedReadings.{save_taken};
ghost use Rattle.pool_save.specs.inside.SoFar.{IsSaveState, save_step_of};
ghost use Rattle.pool_save.specs.inside.Calls.{CountsSaved, LeadsSaved, LeavesSaved, ReadsSaved};
ghost use Rattle.pool_save.specs.inside.Calls.{StepLeaves, SaveStepMoves, SaveStepReads, StepSound};
ghost use Rattle.pool_save.specs.inside.Calls.{StepGrows, StepStops, StopsAtSaved, given_as};
ghost use Rattle.pool_save.specs.inside.Calls.{saved_answer_after};

use crate::so_far::SavedSoFar;
use crate::stop::SaveStop;
use crate::taken::Taken;
use answer_rows::questions;
use league_core::{OutOfMemory, Question, Sheet};
use line_tokens::{read_token, spent_node_in};
use port_core::{Line, LineReader, Source};
use std::alloc::Global;
use tree_arena::Tree;

/// Reads a saved text up to and with the line `saved_end`: for each question about the sheet its
/// tree, if it has an item. On return the reader is at the line after, or after the bad line. On
/// any stop the trees so far are dropped.
pub fn read_saved<S: Source>(
    alloc: Global,
    sheet: &Sheet,
    reader: &mut LineReader,
    source: &mut S,
) -> Result<Vec<Option<Tree>>, SaveStop>
    requires limits { IsWithinLimits sheet.now }
    // If the source shows its bytes: what was still to come, and what is.
    ensures reads { ReadsSaved sheet.now (questions_of sheet.now)
        (contents_to_come reader.old (S.left source.old))
        (contents_to_come reader.new (S.left source.new)) (given_as result (λ trees. trees.items)) }
    ensures trees { IfOk result (λ trees.
        AreSavedTrees sheet.now (questions_of sheet.now) trees.items) }
    ensures asked { IfOk result (λ trees.
        AreAskedTrees sheet.now (questions_of sheet.now) trees.items) }

    // Which lines of the input were passed, whole, where the reader is left, and that reading stops
    // at the read that completes the answer.
    ensures passes { PassesUpTo reader.old reader.new (S.left source.old) (S.left source.new)
        (S.ended source.old) (S.ended source.new) (saved_answer_after reader.new result) }
    ensures leaves { LeavesSaved reader.new (S.left source.new) result }
    ensures takes { TakesInput reader.old reader.new (S.left source.old) (S.left source.new) }
    ensures last { StopsAtSaved sheet.now (questions_of sheet.now) S.left S.reads reader.old
        reader.new source.old source.new result }
    ensures cause { CountsSaved (S.faults source.old) (S.faults source.new) result }
{
    match questions(alloc, sheet) {
        Ok(asked) => read_items(alloc, sheet, asked.as_slice(), reader, source),
        Err(OutOfMemory) => Err(SaveStop::OutOfMemory),
    }
}

// The same, for a list of questions.
fn read_items<S: Source>(
    alloc: Global,
    sheet: &Sheet,
    asked: &[Question],
    reader: &mut LineReader,
    source: &mut S,
) -> Result<Vec<Option<Tree>>, SaveStop>
    requires limits { IsWithinLimits sheet.now }
    requires questions { All (IsQuestionOf sheet.now) asked.now }
    ensures reads { ReadsSaved sheet.now asked.now
        (contents_to_come reader.old (S.left source.old))
        (contents_to_come reader.new (S.left source.new)) (given_as result (λ trees. trees.items)) }
    ensures trees { IfOk result (λ trees. AreSavedTrees sheet.now asked.now trees.items) }
    ensures passes { PassesUpTo reader.old reader.new (S.left source.old) (S.left source.new)
        (S.ended source.old) (S.ended source.new) (saved_answer_after reader.new result) }
    ensures leaves { LeavesSaved reader.new (S.left source.new) result }
    ensures takes { TakesInput reader.old reader.new (S.left source.old) (S.left source.new) }
    ensures last { StopsAtSaved sheet.now asked.now S.left S.reads reader.old reader.new source.old
        source.new result }
    ensures cause { CountsSaved (S.faults source.old) (S.faults source.new) result }
{
    let mut held = SavedSoFar::begin(alloc);
    'lines: loop {
        match take_line(alloc, sheet, asked, &mut held, reader, source) {
            Ok(false) => {}
            Ok(true) => {
                let trees = held.trees;
                return Ok(trees);
            }
            Err(stop) => return Err(stop),
        }
    }
}

// Takes the next content, or the end: true if the text is whole.
fn take_line<S: Source>(
    alloc: Global,
    sheet: &Sheet,
    asked: &[Question],
    held: &mut SavedSoFar,
    reader: &mut LineReader,
    source: &mut S,
) -> Result<bool, SaveStop>
    requires limits { IsWithinLimits sheet.now }
    requires questions { All (IsQuestionOf sheet.now) asked.now }
    requires sound { IsSaveState sheet.now asked.now held.old }
    requires few { length held.old.nodes < most_nodes }
    ensures reads { (start : Option Contents)
        → LeadsSaved sheet.now asked.now start
        (contents_to_come reader.old (S.left source.old)) held.old
        → SaveStepReads sheet.now asked.now start
        (contents_to_come reader.new (S.left source.new)) held.new result }
    ensures sound { StepSound sheet.now asked.now held.new result }
    ensures few { StepGrows held.old held.new result }
    ensures moves { SaveStepMoves reader.old reader.new result }
    ensures passes { PassesUpTo reader.old reader.new (S.left source.old) (S.left source.new)
        (S.ended source.old) (S.ended source.new) (saved_answer_after reader.new result) }
    ensures leaves { StepLeaves reader.new (S.left source.new) result }
    ensures takes { TakesInput reader.old reader.new (S.left source.old) (S.left source.new) }
    ensures last { StepStops S.left S.reads reader.old reader.new source.old source.new result }
    ensures cause { CountsSaved (S.faults source.old) (S.faults source.new) result }
{
    match reader.next(source) {
        Ok(Line::Text { number }) => match take_text(alloc, sheet, asked, held, reader.text()) {
            Ok(Taken::On) => Ok(false),
            Ok(Taken::Whole) => Ok(true),
            Ok(Taken::Bad) => Err(SaveStop::BadSave { number }),
            Err(OutOfMemory) => Err(SaveStop::OutOfMemory),
        },
        Ok(Line::End { number }) => Err(SaveStop::BadSave { number }),
        Err(stop) => Err(SaveStop::Read(stop)),
    }
}

// Takes the content of a line.
fn take_text(
    alloc: Global,
    sheet: &Sheet,
    asked: &[Question],
    held: &mut SavedSoFar,
    text: &[u8],
) -> Result<Taken, OutOfMemory>
    requires limits { IsWithinLimits sheet.now }
    requires questions { All (IsQuestionOf sheet.now) asked.now }
    requires sound { IsSaveState sheet.now asked.now held.old }
    requires few { length held.old.nodes < most_nodes }
    ensures { IfOk result (λ taken. save_step_of held.new taken
        ≡ save_taken sheet.now asked.now held.old (token_of text.now)) }
{
    match spent_node_in(text) {
        Some(node) => held.take_node(alloc, sheet, asked, node),
        None => held.take(alloc, sheet, asked, &read_token(alloc, text)?),
    }
}
