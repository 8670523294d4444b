//! What reading a line and writing a row return.

/// The most bytes that a line may have before its LF.
pub const LINE_LIMIT: usize = 1024;

/// The most bytes that an input may have.
pub const INPUT_LIMIT: usize = 67_108_864;

/// A line, or the end of the input. Lines are numbered from 1, those that are passed over too; the
/// end has the number after the last line.
#[derive(Debug, Clone, Copy, PartialEq, Eq)]
pub enum Line {
    Text { number: u64 },
    End { number: u64 },
}

/// Why no line could be given.
#[derive(Debug, Clone, Copy, PartialEq, Eq)]
pub enum ReadStop {
    /// The source failed. What was read is kept, and a later call reads on.
    ReadFault,
    /// The line that is due has more than 1,024 bytes before its LF. Each later call returns the
    /// same.
    LineTooLong { number: u64 },
    /// The input has more than 67,108,864 bytes, and the first one too many stands in the line that
    /// is due. Each later call returns the same.
    InputTooLong { number: u64 },
}

/// The sink failed. A prefix of the row went out, perhaps none of it.
#[derive(Debug, Clone, Copy, PartialEq, Eq)]
pub struct WriteFault;
