//! Writing a row: it is offered to the sink until all of it is taken.

ghost use Rattle.std.specs.Prelude.{◌≡◌, ◌<◌, OnErr, OnOk, length};
ghost use Rattle.std.specs.Io.KnownBytes.{append_known};
ghost use Rattle.port_core.specs.Ports.{AppendsPrefix, Rose};

use crate::line::WriteFault;
use crate::ports::{Put, Sink};

/// Writes a whole line. After a fault some prefix of it went out, and the rest is not offered
/// again.
pub fn put_line<K: Sink>(sink: &mut K, line: &[u8]) -> Result<(), WriteFault>
    requires { 0 < length line.now }
    ensures ok { OnOk result (K.holds sink.new ≡ append_known (K.holds sink.old) line.now) }
    ensures err { OnErr result (AppendsPrefix (K.holds sink.old) (K.holds sink.new) line.now) }
    ensures cause { OnErr result (Rose (K.faults sink.old) (K.faults sink.new)) }
    ensures counts { OnOk result (K.faults sink.new ≡ K.faults sink.old) }
{
    let mut done = 0;
    'offers: while done < line.len() {
        match sink.write(&line[done..]) {
            Put::Took(count) => done += count,
            Put::Failed => return Err(WriteFault),
        }
    }
    Ok(())
}
