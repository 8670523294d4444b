//! An answer of verdicts, row by row: the word for every club and every line, and after it what
//! shows it.

ghost use Rattle.std.specs.Prelude.{All, IsTrue};
ghost use Rattle.answer_rows.specs.inside.ItemRanges.{AreInRange, IsInRange, lines_shown};
ghost use Rattle.answer_rows.specs.inside.Outputs.{CountsPut, Puts};
ghost use Rattle.answer_rows.specs.Rows.{text_of_lines, verdict_row};
ghost use Rattle.answer_rows.specs.inside.Verdicts.{item_text, text_of_items, text_of_verdicts};

use crate::fields::club_name;
use crate::lines::{put_ask, put_lines};
use crate::output::{OutputStop, put_part};
use crate::rows::verdict_row;
use crate::word::{Verdict, Word};
use cert_text::LineText;
use league_core::Sheet;
use port_core::Sink;
use std::alloc::Global;

/// Writes the row of an ask and the items of its verdicts, with refutations if proofs are asked
/// for. `epoch` is how many events the season took.
pub fn put_verdicts<L: LineText, K: Sink>(
    alloc: Global,
    proofs: bool,
    sheet: &Sheet,
    epoch: u64,
    verdicts: &[Verdict<L>],
    sink: &mut K,
) -> Result<(), OutputStop>
    requires { AreInRange L.in_range sheet.now verdicts.now }
    ensures text { Puts (text_of_verdicts L.text proofs sheet.now epoch verdicts.now)
        (K.holds sink.old) (K.holds sink.new) result }
    ensures counts { CountsPut (K.faults sink.old) (K.faults sink.new) result }
{
    match put_ask(alloc, epoch, sink) {
        Ok(()) => put_items(alloc, proofs, sheet, verdicts, sink),
        Err(stop) => Err(stop),
    }
}

/// Writes the items of verdicts alone. After a stop a prefix of them went out, perhaps none of it.
pub fn put_items<L: LineText, K: Sink>(
    alloc: Global,
    proofs: bool,
    sheet: &Sheet,
    verdicts: &[Verdict<L>],
    sink: &mut K,
) -> Result<(), OutputStop>
    requires { AreInRange L.in_range sheet.now verdicts.now }
    ensures text { Puts (text_of_items L.text proofs sheet.now verdicts.now)
        (K.holds sink.old) (K.holds sink.new) result }
    ensures counts { CountsPut (K.faults sink.old) (K.faults sink.new) result }
{
    for verdict in verdicts {
        match put_item(alloc, proofs, sheet, verdict, sink) {
            Ok(()) => {}
            Err(stop) => return Err(stop),
        }
    }
    Ok(())
}

fn put_item<L: LineText, K: Sink>(
    alloc: Global,
    proofs: bool,
    sheet: &Sheet,
    verdict: &Verdict<L>,
    sink: &mut K,
) -> Result<(), OutputStop>
    requires { IsInRange L.in_range sheet.now verdict.now }
    ensures text { Puts (item_text L.text proofs sheet.now verdict.now)
        (K.holds sink.old) (K.holds sink.new) result }
    ensures counts { CountsPut (K.faults sink.old) (K.faults sink.new) result }
{
    let name = club_name(sheet, verdict.club);
    match put_verdict(alloc, verdict.line, name, verdict.word, sink) {
        Ok(()) => put_shown(alloc, proofs, verdict, sink),
        Err(stop) => Err(stop),
    }
}

/// Writes the row of a word about a line and a club of this name.
pub fn put_verdict<K: Sink>(
    alloc: Global,
    line: u8,
    name: &str,
    word: Word,
    sink: &mut K,
) -> Result<(), OutputStop>
    ensures text { Puts (verdict_row line name.now word) (K.holds sink.old) (K.holds sink.new)
        result }
    ensures counts { CountsPut (K.faults sink.old) (K.faults sink.new) result }
{
    match verdict_row(alloc, line, name, word) {
        Ok(row) => put_part(sink, row.as_slice()),
        Err(_) => Err(OutputStop::OutOfMemory),
    }
}

// What shows the word: examples and trees on which the budget was spent always, a refutation if
// proofs are asked for.
fn put_shown<L: LineText, K: Sink>(
    alloc: Global,
    proofs: bool,
    verdict: &Verdict<L>,
    sink: &mut K,
) -> Result<(), OutputStop>
    requires { All (λ line. IsTrue (L.in_range line)) verdict.now.proof.items }
    ensures text { Puts
        (text_of_lines L.text (lines_shown proofs verdict.now.word verdict.now.proof.items))
        (K.holds sink.old) (K.holds sink.new) result }
    ensures counts { CountsPut (K.faults sink.old) (K.faults sink.new) result }
{
    if proofs {
        return put_lines(alloc, verdict.proof.as_slice(), sink);
    }
    match verdict.word {
        Word::Clinched | Word::Lost => Ok(()),
        Word::Possible | Word::Unsettled => put_lines(alloc, verdict.proof.as_slice(), sink),
    }
}
