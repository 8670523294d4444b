//! A row on its way to the sink. It is offered as one piece.

ghost use Rattle.std.specs.Prelude.{◌≡◌, OnErr, OnOk};
ghost use Rattle.std.specs.Io.KnownBytes.{append_known};
ghost use Rattle.port_core.specs.Ports.{AppendsPrefix, Rose};
ghost use Rattle.answer_rows.specs.inside.Outputs.{CountsPut, Puts};

use port_core::{Sink, WriteFault, put_line};

/// Why an answer is not written to its end.
#[derive(Clone, Copy, Debug, PartialEq, Eq)]
pub enum OutputStop {
    WriteFault,
    OutOfMemory,
}

/// Writes a row. After a fault a prefix of it went out, and nothing more is offered.
pub fn put_row<K: Sink>(sink: &mut K, row: &[u8]) -> Result<(), WriteFault>
    ensures ok { OnOk result (K.holds sink.new ≡ append_known (K.holds sink.old) row.now) }
    ensures err { OnErr result (AppendsPrefix (K.holds sink.old) (K.holds sink.new) row.now) }
    ensures cause { OnErr result (Rose (K.faults sink.old) (K.faults sink.new)) }
    ensures counts { OnOk result (K.faults sink.new ≡ K.faults sink.old) }
{
    if row.is_empty() {
        Ok(())
    } else {
        put_line(sink, row)
    }
}

/// Writes a row of an answer, as `put_row` does.
pub fn put_part<K: Sink>(sink: &mut K, row: &[u8]) -> Result<(), OutputStop>
    ensures text { Puts row.now (K.holds sink.old) (K.holds sink.new) result }
    ensures counts { CountsPut (K.faults sink.old) (K.faults sink.new) result }
{
    match put_row(sink, row) {
        Ok(()) => Ok(()),
        Err(_) => Err(OutputStop::WriteFault),
    }
}
