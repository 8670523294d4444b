//! std's readers and writers as sources and sinks. They show no bytes, and count each error.

ghost use Rattle.std.specs.Prelude.{◌≡◌, ◌<◌, None, false, length};
ghost use Rattle.std.specs.Io.KnownBytes.{Consumes};
ghost use Rattle.port_core.specs.inside.Adapters.{HandsOn, PassesOn, has_ended, read_faults};
ghost use Rattle.port_core.specs.inside.Adapters.{reader_of, write_faults, writer_of};
ghost use Rattle.port_core.specs.Ports.{CountsRead, CountsWrite, HoldsOfRead, Reads, TellsEnd};
ghost use Rattle.port_core.specs.Ports.{Writes};

use crate::ports::{Got, Put, Sink, Source};
use std::io::{Read, Write};

/// A source over std's reader.
#[derive(Drop)]
pub struct StdSource<I: Read> {
    input: I,
    faults: u64,
    ended: bool,
}

impl<I: Read> StdSource<I> {
    /// A source with no faults so far, whose end was not marked.
    pub fn new(input: I) -> StdSource<I>
        ensures reader { reader_of result ≡ input }
        ensures faults { read_faults result ≡ 0 }
        ensures end { has_ended result ≡ false }
    {
        StdSource {
            input,
            faults: 0,
            ended: false,
        }
    }
}

impl<I: Read> Source for StdSource<I> {
    ghost left = { λ _. None };

    ghost faults = { read_faults };

    ghost reads = { λ old bytes new.
        Consumes (I.remaining (reader_of old)) (I.remaining (reader_of new)) bytes };

    ghost ended = { has_ended };

    fn read(&mut self, into: &mut [u8]) -> Got
        requires { 0 < length into.old }
        ensures bytes { Reads None None result into.new }
        ensures cause { CountsRead (read_faults self.old) (read_faults self.new) result }
        ensures step { HoldsOfRead (λ bytes. Consumes (I.remaining (reader_of self.old))
            (I.remaining (reader_of self.new)) bytes) result into.new }
        ensures end { TellsEnd (has_ended self.old) (has_ended self.new) result }
        ensures reader { HandsOn (I.remaining (reader_of self.old))
            (I.remaining (reader_of self.new)) result into.new }
    {
        match self.input.read(into) {
            Ok(count) => {
                self.ended = self.ended || count == 0;
                Got::Bytes(count)
            }
            Err(_) => {
                self.faults = self.faults.saturating_add(1);
                Got::Failed
            }
        }
    }
}

/// A sink over std's writer. Each piece is handed on at once: a writer that keeps bytes back is
/// flushed. A writer that takes nothing, or cannot flush, has failed.
#[derive(Drop)]
pub struct StdSink<O: Write> {
    output: O,
    faults: u64,
}

impl<O: Write> StdSink<O> {
    /// A sink with no faults so far.
    pub fn new(output: O) -> StdSink<O>
        ensures writer { writer_of result ≡ output }
        ensures faults { write_faults result ≡ 0 }
    {
        StdSink { output, faults: 0 }
    }

    // What the writer took, or that it failed; the fault is not counted yet.
    fn hand_on(&mut self, piece: &[u8]) -> Put
        requires { 0 < length piece.now }
        ensures bytes { Writes None None result piece.now }
        ensures writer { PassesOn (O.contents (writer_of self.old))
            (O.contents (writer_of self.new)) result piece.now }
        ensures faults { write_faults self.new ≡ write_faults self.old }
    {
        match self.output.write(piece) {
            Ok(count) if 0 < count => match self.output.flush() {
                Ok(()) => Put::Took(count),
                Err(_) => Put::Failed,
            },
            _ => Put::Failed,
        }
    }
}

impl<O: Write> Sink for StdSink<O> {
    ghost holds = { λ _. None };

    ghost faults = { write_faults };

    fn write(&mut self, piece: &[u8]) -> Put
        requires { 0 < length piece.now }
        ensures bytes { Writes None None result piece.now }
        ensures cause { CountsWrite (write_faults self.old) (write_faults self.new) result }
        ensures writer { PassesOn (O.contents (writer_of self.old))
            (O.contents (writer_of self.new)) result piece.now }
    {
        let put = self.hand_on(piece);
        if let Put::Failed = &put {
            self.faults = self.faults.saturating_add(1);
        }
        put
    }
}
