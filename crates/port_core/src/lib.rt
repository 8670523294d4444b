//! The ends of a run: sources and sinks whose calls may fail, lines read from one, rows put into
//! the other.
//!
//! A device is seen as the bytes that it shows, if it shows them, and a count of faults. What a
//! call promises is in `specs/Ports.antt`; what a line is, in `specs/Lines.antt`; which lines
//! count, in `specs/Contents.antt`; what a reader of lines returns, in
//! `specs/inside/ReaderCalls.antt`.
#![tactic(auto)]

mod buffer;
mod bytes;
mod content;
mod laws;
mod line;
mod line_reader;
mod mem_sink;
mod mem_source;
mod ports;
mod std_ports;
mod writing;

pub use laws::{appends_in_turn, lines_are_the_only_split, lines_split_the_input};
pub use line::{INPUT_LIMIT, LINE_LIMIT, Line, ReadStop, WriteFault};
pub use line_reader::LineReader;
pub use mem_sink::MemSink;
pub use mem_source::MemSource;
pub use ports::{Got, Put, Sink, Source};
pub use std_ports::{StdSink, StdSource};
pub use writing::put_line;
