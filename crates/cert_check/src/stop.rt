//! What `check` returns.

ghost use Rattle.std.specs.Prelude.{◌≡◌};

use league_core::OutOfMemory;

/// The part of one ask is proved.
#[derive(Clone, Copy, Debug, PartialEq, Eq)]
pub struct Accepted {
    /// The position after the part's last line.
    pub next: usize,
    /// How many verdict rows the part has.
    pub rows: u32,
    /// How many of them are unsettled.
    pub unsettled: u32,
}

/// Why a part is not accepted.
#[derive(Clone, Copy, Debug, PartialEq, Eq)]
pub enum CheckStop {
    /// The line of this number may not come there.
    BadLine { number: u64 },
    /// The line of this number fits, and does not prove what it says.
    NoProof { number: u64 },
    /// The lines end before the part is whole.
    Short,
    OutOfMemory,
}

impl From<OutOfMemory> for CheckStop {
    ghost use Rattle.cert_check.specs.declared.stop.CheckStop.TheVariants.{OutOfMemory};

    ghost from_gives = { λ _ stop. stop ≡ OutOfMemory };

    fn from(_: OutOfMemory) -> CheckStop {
        CheckStop::OutOfMemory
    }
}

// The same by positions of lines, from 0.
#[derive(Clone, Copy)]
pub enum CheckStopAt {
    BadLine(usize),
    NoProof(usize),
    Short,
    OutOfMemory,
}

impl From<OutOfMemory> for CheckStopAt {
    ghost use Rattle.cert_check.specs.declared.stop.CheckStopAt.TheVariants.{OutOfMemory};

    ghost from_gives = { λ _ stop. stop ≡ OutOfMemory };

    fn from(_: OutOfMemory) -> CheckStopAt {
        CheckStopAt::OutOfMemory
    }
}
