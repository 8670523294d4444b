//! The numbers on their way to the sink, row by row.

ghost use Rattle.cert_text.specs.ExampleLines.{text_of_proof_lines};
ghost use Rattle.answer_rows.specs.inside.Outputs.{CountsPut, Puts};
ghost use Rattle.answer_rows.specs.Rows.{score_row};
ghost use Rattle.answer_rows.specs.inside.SpentLines.{AreInLineRange, IsInLineRange};
ghost use Rattle.answer_rows.specs.inside.SpentLines.{IsBoundInRange};
ghost use Rattle.answer_rows.specs.ScoreTexts.{tree_lines};
ghost use Rattle.answer_rows.specs.ScoreTexts.{trees_text, score_item};
ghost use Rattle.answer_rows.specs.ScoreTexts.{text_of_score_items, text_of_scores};

use crate::bound::{Bound, ClubScores, Score2};
use crate::fields::club_name;
use crate::lines::{put_ask, put_lines};
use crate::output::{OutputStop, put_part};
use crate::rows::score_row;
use league_core::Sheet;
use port_core::Sink;
use std::alloc::Global;

/// Writes the row of an ask and the row of each line and club, with the spent trees of its ranges
/// after it, that of the possible score first. `epoch` is how many events came before the ask.
/// After a stop a prefix of the text went out, perhaps none of it.
pub fn put_scores<K: Sink>(
    alloc: Global,
    epoch: u64,
    sheet: &Sheet,
    scores: &[ClubScores],
    sink: &mut K,
) -> Result<(), OutputStop>
    requires { AreInLineRange sheet.now scores.now }
    ensures text { Puts (text_of_scores sheet.now epoch scores.now)
        (K.holds sink.old) (K.holds sink.new) result }
    ensures counts { CountsPut (K.faults sink.old) (K.faults sink.new) result }
{
    match put_ask(alloc, epoch, sink) {
        Ok(()) => put_items(alloc, sheet, scores, sink),
        Err(stop) => Err(stop),
    }
}

fn put_items<K: Sink>(
    alloc: Global,
    sheet: &Sheet,
    scores: &[ClubScores],
    sink: &mut K,
) -> Result<(), OutputStop>
    requires { AreInLineRange sheet.now scores.now }
    ensures text { Puts (text_of_score_items sheet.now scores.now)
        (K.holds sink.old) (K.holds sink.new) result }
    ensures counts { CountsPut (K.faults sink.old) (K.faults sink.new) result }
{
    for found in scores {
        match put_item(alloc, sheet, found, sink) {
            Ok(()) => {}
            Err(stop) => return Err(stop),
        }
    }
    Ok(())
}

fn put_item<K: Sink>(
    alloc: Global,
    sheet: &Sheet,
    found: &ClubScores,
    sink: &mut K,
) -> Result<(), OutputStop>
    requires { IsInLineRange sheet.now found.now }
    ensures text { Puts (score_item sheet.now found.now) (K.holds sink.old) (K.holds sink.new)
        result }
    ensures counts { CountsPut (K.faults sink.old) (K.faults sink.new) result }
{
    let name = club_name(sheet, found.club);
    match put_score(alloc, found.line, name, &found.scores, sink) {
        Ok(()) => put_trees(alloc, &found.scores, sink),
        Err(stop) => Err(stop),
    }
}

fn put_score<K: Sink>(
    alloc: Global,
    line: u8,
    name: &str,
    scores: &Score2,
    sink: &mut K,
) -> Result<(), OutputStop>
    ensures text { Puts (score_row line name.now scores.now) (K.holds sink.old) (K.holds sink.new)
        result }
    ensures counts { CountsPut (K.faults sink.old) (K.faults sink.new) result }
{
    match score_row(alloc, line, name, scores) {
        Ok(row) => put_part(sink, row.as_slice()),
        Err(_) => Err(OutputStop::OutOfMemory),
    }
}

// The spent trees of both numbers.
fn put_trees<K: Sink>(alloc: Global, scores: &Score2, sink: &mut K) -> Result<(), OutputStop>
    requires possible { IsBoundInRange scores.now.pqs }
    requires guaranteed { IsBoundInRange scores.now.gqs }
    ensures text { Puts (trees_text scores.now) (K.holds sink.old) (K.holds sink.new) result }
    ensures counts { CountsPut (K.faults sink.old) (K.faults sink.new) result }
{
    match put_tree(alloc, &scores.pqs, sink) {
        Ok(()) => put_tree(alloc, &scores.gqs, sink),
        Err(stop) => Err(stop),
    }
}

// The spent tree of a range; nothing if there is none.
fn put_tree<K: Sink>(alloc: Global, bound: &Bound, sink: &mut K) -> Result<(), OutputStop>
    requires { IsBoundInRange bound.now }
    ensures text { Puts (text_of_proof_lines (tree_lines bound.now))
        (K.holds sink.old) (K.holds sink.new) result }
    ensures counts { CountsPut (K.faults sink.old) (K.faults sink.new) result }
{
    match bound {
        Bound::Known(_) | Bound::None => Ok(()),
        Bound::Between { spent, .. } => put_lines(alloc, spent.as_slice(), sink),
    }
}
