//! Why a saved text is not read.

ghost use Rattle.std.specs.Prelude.{◌≡◌};

use league_core::OutOfMemory;
use port_core::ReadStop;

/// Why no trees are given.
#[derive(Clone, Copy, PartialEq, Eq, Debug)]
pub enum SaveStop {
    /// No saved text has the line of this number there; at the end of the input it is one more than
    /// the last.
    BadSave { number: u64 },
    /// The input stopped, in place of any test on that line.
    Read(ReadStop),
    OutOfMemory,
}

impl From<OutOfMemory> for SaveStop {
    ghost use Rattle.pool_save.specs.declared.stop.SaveStop.TheVariants.{OutOfMemory};

    ghost from_gives = { λ _ stop. stop ≡ OutOfMemory };

    fn from(_cause: OutOfMemory) -> SaveStop {
        SaveStop::OutOfMemory
    }
}
