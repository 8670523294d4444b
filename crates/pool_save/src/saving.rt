//! The saved text of a pool on which the work is finished, row by row.

ghost use Rattle.std.specs.Prelude.{◌≡◌, ◌<◌, All, IfOk, IsTrue, length};
ghost use Rattle.cert_text.specs.Ranges.{is_in_range};
ghost use Rattle.cert_text.specs.Rows.{text_of_row};
ghost use Rattle.cert_text.specs.ExampleLines.{text_of_proof_lines};
ghost use Rattle.cert_text.specs.TreeLines.{marked_lines};
ghost use Rattle.branch_pool.specs.inside.States.{out_count};
ghost use Rattle.answer_rows.specs.inside.Outputs.{CountsPut, Puts, PutsSomeText};
ghost use Rattle.answer_rows.specs.AskedQuestions.{questions_of};
ghost use Rattle.verdict_run.specs.inside.Working.{AreAllNew, AreSettled};
ghost use Rattle.pool_save.specs.SavedTexts.{end_fields};
ghost use Rattle.pool_save.specs.SavedItems.{IsSavedOf, item_row};
ghost use Rattle.pool_save.specs.inside.WrittenPools.{item_of_seat, items_of_seats, saved_text_of};

use crate::item::{item_lines, item_row};
use answer_rows::{OutputStop, put_lines, put_part, text_field};
use branch_pool::{Pool, QuestionState};
use cert_text::write_row;
use league_core::{OutOfMemory, Question, Sheet};
use port_core::Sink;
use std::alloc::Global;
use tree_reuse::Tree;

/// Writes the saved text of a pool on which the work is finished: an item for each question, with
/// the tree that the pool keeps of it, and the row `saved_end`. After a stop a prefix of it went
/// out, perhaps nothing.
pub fn put_saved<K: Sink>(alloc: Global, pool: &Pool, sink: &mut K) -> Result<(), OutputStop>
    requires asked { pool.now.questions ≡ questions_of pool.now.sheet }
    requires home { out_count pool.now.loans ≡ 0 }
    requires settled { AreSettled pool.now }
    requires fresh { AreAllNew pool.now }
    ensures text { PutsSomeText (IsSavedOf pool.now.sheet pool.now.season)
        (K.holds sink.old) (K.holds sink.new) result }
    ensures trees { Puts (saved_text_of pool.now) (K.holds sink.old) (K.holds sink.new) result }
    ensures counts { CountsPut (K.faults sink.old) (K.faults sink.new) result }
{
    pool.recall_invariant();
    put_text(alloc, pool, sink)
}

// The same, whatever the trees say.
fn put_text<K: Sink>(alloc: Global, pool: &Pool, sink: &mut K) -> Result<(), OutputStop>
    ensures text { Puts (saved_text_of pool.now) (K.holds sink.old) (K.holds sink.new) result }
    ensures counts { CountsPut (K.faults sink.old) (K.faults sink.new) result }
{
    match put_items(alloc, pool, sink) {
        Ok(()) => put_end(alloc, sink),
        Err(stop) => Err(stop),
    }
}

fn put_items<K: Sink>(alloc: Global, pool: &Pool, sink: &mut K) -> Result<(), OutputStop>
    ensures text { Puts (items_of_seats pool.now.sheet pool.now.seats)
        (K.holds sink.old) (K.holds sink.new) result }
    ensures counts { CountsPut (K.faults sink.old) (K.faults sink.new) result }
{
    pool.recall_invariant();
    for place in 0..pool.questions().len() {
        match put_item(alloc, pool.sheet(), pool.seat(place as u16), sink) {
            Ok(()) => {}
            Err(stop) => return Err(stop),
        }
    }
    Ok(())
}

fn put_item<K: Sink>(
    alloc: Global,
    sheet: &Sheet,
    seat: &QuestionState,
    sink: &mut K,
) -> Result<(), OutputStop>
    requires in_range { seat.now.question.club < length sheet.now.clubs }
    requires lines { All (λ line. IsTrue (is_in_range line)) (marked_lines seat.now.tree) }
    ensures text { Puts (item_of_seat sheet.now seat.now)
        (K.holds sink.old) (K.holds sink.new) result }
    ensures counts { CountsPut (K.faults sink.old) (K.faults sink.new) result }
{
    match put_item_row(alloc, sheet, &seat.question, sink) {
        Ok(()) => put_tree(alloc, &seat.tree, sink),
        Err(stop) => Err(stop),
    }
}

fn put_item_row<K: Sink>(
    alloc: Global,
    sheet: &Sheet,
    question: &Question,
    sink: &mut K,
) -> Result<(), OutputStop>
    requires in_range { question.now.club < length sheet.now.clubs }
    ensures text { Puts (item_row sheet.now question.now) (K.holds sink.old) (K.holds sink.new)
        result }
    ensures counts { CountsPut (K.faults sink.old) (K.faults sink.new) result }
{
    match item_row(alloc, sheet, question) {
        Ok(row) => put_part(sink, row.as_slice()),
        Err(_) => Err(OutputStop::OutOfMemory),
    }
}

fn put_tree<K: Sink>(alloc: Global, tree: &Tree, sink: &mut K) -> Result<(), OutputStop>
    requires { All (λ line. IsTrue (is_in_range line)) (marked_lines tree.now) }
    ensures text { Puts (text_of_proof_lines (marked_lines tree.now))
        (K.holds sink.old) (K.holds sink.new) result }
    ensures counts { CountsPut (K.faults sink.old) (K.faults sink.new) result }
{
    match item_lines(alloc, tree) {
        Ok(lines) => put_lines(alloc, lines.as_slice(), sink),
        Err(_) => Err(OutputStop::OutOfMemory),
    }
}

fn put_end<K: Sink>(alloc: Global, sink: &mut K) -> Result<(), OutputStop>
    ensures text { Puts (text_of_row end_fields) (K.holds sink.old) (K.holds sink.new) result }
    ensures counts { CountsPut (K.faults sink.old) (K.faults sink.new) result }
{
    match end_row(alloc) {
        Ok(row) => put_part(sink, row.as_slice()),
        Err(_) => Err(OutputStop::OutOfMemory),
    }
}

fn end_row(alloc: Global) -> Result<Vec<u8>, OutOfMemory>
    ensures { IfOk result (λ row. row.items ≡ text_of_row end_fields) }
{
    let fields = [text_field(alloc, "saved_end")?];
    write_row(alloc, &fields)
}
