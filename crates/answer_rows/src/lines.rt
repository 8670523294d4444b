//! The row of an ask, and lines of proofs, each a row of its own.

ghost use Rattle.std.specs.Prelude.{◌≡◌, All, IsTrue};
ghost use Rattle.answer_rows.specs.inside.Outputs.{CountsPut, Puts};
ghost use Rattle.answer_rows.specs.Rows.{ask_row, line_row, text_of_lines};

use crate::output::{OutputStop, put_part};
use crate::rows::{ask_row, line_row};
use cert_text::LineText;
use port_core::Sink;
use std::alloc::Global;

/// Writes the row of an ask; `epoch` is how many events came before it. After a stop a prefix of
/// the row went out, perhaps none of it.
pub fn put_ask<K: Sink>(alloc: Global, epoch: u64, sink: &mut K) -> Result<(), OutputStop>
    ensures text { Puts (ask_row epoch) (K.holds sink.old) (K.holds sink.new) result }
    ensures counts { CountsPut (K.faults sink.old) (K.faults sink.new) result }
{
    match ask_row(alloc, epoch) {
        Ok(row) => put_part(sink, row.as_slice()),
        Err(_) => Err(OutputStop::OutOfMemory),
    }
}

/// Writes lines of proofs, each on a row of its own. After a stop a prefix of these rows went out,
/// perhaps none of it.
pub fn put_lines<L: LineText, K: Sink>(
    alloc: Global,
    lines: &[L],
    sink: &mut K,
) -> Result<(), OutputStop>
    requires { All (λ line. IsTrue (L.in_range line)) lines.now }
    ensures text { Puts (text_of_lines L.text lines.now) (K.holds sink.old) (K.holds sink.new)
        result }
    ensures counts { CountsPut (K.faults sink.old) (K.faults sink.new) result }
{
    for line in lines {
        match put_line(alloc, line, sink) {
            Ok(()) => {}
            Err(stop) => return Err(stop),
        }
    }
    Ok(())
}

fn put_line<L: LineText, K: Sink>(alloc: Global, line: &L, sink: &mut K) -> Result<(), OutputStop>
    requires { IsTrue (L.in_range line.now) }
    ensures text { Puts (line_row L.text line.now) (K.holds sink.old) (K.holds sink.new) result }
    ensures counts { CountsPut (K.faults sink.old) (K.faults sink.new) result }
{
    match line_row(alloc, line) {
        Ok(row) => put_part(sink, row.as_slice()),
        Err(_) => Err(OutputStop::OutOfMemory),
    }
}
