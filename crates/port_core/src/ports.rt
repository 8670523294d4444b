//! What a run reads from and writes to. Each call may fail, and a count of faults rises when it
//! does.

ghost use Rattle.std.specs.Prelude.{ℕ, ◌<◌, Bool, List, Option, length};
ghost use Rattle.port_core.specs.Ports.{CountsRead, CountsWrite, HoldsOfRead, Reads, TellsEnd};
ghost use Rattle.port_core.specs.Ports.{Writes};

/// What a read returns: so many bytes, none only at the end, or that it failed.
#[derive(Debug, Clone, Copy, PartialEq, Eq)]
pub enum Got {
    Bytes(usize),
    Failed,
}

/// What a write returns: that it took so many bytes, one at least, or that it failed.
#[derive(Debug, Clone, Copy, PartialEq, Eq)]
pub enum Put {
    Took(usize),
    Failed,
}

/// Gives bytes, piece by piece.
pub trait Source {
    // The bytes that are left, if the source shows them, and the count of faults.
    ghost left: { Self → Option (List ℕ) };

    ghost faults: { Self → ℕ };

    // A read of the source in the first state gave these bytes, and left the second. Each source
    // says so itself: the clauses on the last read speak of it.
    ghost reads: { Self → List ℕ → Self → Type 0 };

    // Whether a read marked the end, by giving no byte. Each source says so itself: the clauses on
    // a read that failed speak of it.
    ghost ended: { Self → Bool };

    /// Puts the next bytes at the start of `into`. A read that fails loses no byte.
    fn read(&mut self, into: &mut [u8]) -> Got
        requires { 0 < length into.old }
        ensures bytes { Reads (left self.old) (left self.new) result into.new }
        ensures cause { CountsRead (faults self.old) (faults self.new) result }
        ensures step { HoldsOfRead (λ bytes. reads self.old bytes self.new) result into.new }
        ensures end { TellsEnd (ended self.old) (ended self.new) result };
}

/// Takes bytes, piece by piece.
pub trait Sink {
    // The bytes that the sink holds, if it shows them, and the count of faults.
    ghost holds: { Self → Option (List ℕ) };

    ghost faults: { Self → ℕ };

    /// Takes bytes from the start of `piece`. A write that fails takes none.
    fn write(&mut self, piece: &[u8]) -> Put
        requires { 0 < length piece.now }
        ensures bytes { Writes (holds self.old) (holds self.new) result piece.now }
        ensures cause { CountsWrite (faults self.old) (faults self.new) result };
}
