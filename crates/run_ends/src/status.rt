//! How a run ends.

ghost use Rattle.std.specs.Prelude.{◌≡◌};
ghost use Rattle.run_ends.specs.inside.Statuses.{exit_code};

/// The end of a run. A fault of the source or the sink, and running out of memory, are no faults of
/// the input.
#[derive(Clone, Copy, Debug, PartialEq, Eq)]
pub enum Status {
    /// The input was read to its end, and every ask that the mode answers was answered.
    Done,
    /// The words of the command fit no mode.
    BadWords,
    /// A line of the sheet is refused.
    BadSheet,
    /// A line after the sheet is refused, of a feed or of a saved text.
    BadFeed,
    /// The source failed.
    ReadFault,
    /// The sink failed.
    WriteFault,
    OutOfMemory,
    /// A report is no proof; only a check answers it.
    NotProved,
    /// A line, or the input, has more bytes than it may have.
    TooLong,
}

impl Status {
    /// The exit status of the program.
    pub fn code(self) -> u8
        ensures { result ≡ exit_code self }
    {
        match self {
            Status::Done => 0,
            Status::BadWords => 1,
            Status::BadSheet => 2,
            Status::BadFeed => 3,
            Status::ReadFault => 4,
            Status::WriteFault => 5,
            Status::OutOfMemory => 6,
            Status::NotProved => 7,
            Status::TooLong => 8,
        }
    }
}
