//! The lines of an input that count, one by one, from a source that may give it in any pieces and
//! fail at any call. What counts of a line is called its content.
//!
//!     source  ── read ──>  bytes in hand  ── line by line ──>  content last given
//!
//! The reader reads only while no answer is in hand, so it never waits for more input than its
//! line. A fault loses nothing: what was read stays in hand. A line costs a look at its bytes; its
//! content is not copied, but stays where it was read. The next read moves it, with what is in
//! hand, to the start of the room, and takes at most what they leave.

ghost use Rattle.std.specs.Prelude.{◌≡◌, ◌+◌, ◌-◌, ◌<◌, ◌≤◌, [], IfOk, Ok, length, option_map};
ghost use Rattle.port_core.specs.Contents.{input_limit, number_at, start};
ghost use Rattle.port_core.specs.Readers.{HasAnswer, TakesInput, bytes_taken, contents_to_come};
ghost use Rattle.port_core.specs.inside.ReaderCalls.{CountsNext, EndsInput, EndsLine, EndsWait};
ghost use Rattle.port_core.specs.inside.ReaderCalls.{IsWithin, KeepsText, NextGives};
ghost use Rattle.port_core.specs.inside.ReaderCalls.{LeavesReader, LineKeepsText, MovesOn};
ghost use Rattle.port_core.specs.inside.ReaderCalls.{PassesLine, PassesTo, StaysStopped};
ghost use Rattle.port_core.specs.inside.ReaderCalls.{StopsAtAnswer, given_by, most_held};

use crate::buffer::{Buffer, Due, await_line};
use crate::content::{content_of, is_skipped};
use crate::line::{INPUT_LIMIT, LINE_LIMIT, Line, ReadStop};
use crate::ports::Source;
use league_core::OutOfMemory;
use std::alloc::Global;
use std::marker::Model;

/// Gives the lines of one input that count, without comments and empty lines. Its room is taken
/// once, at the start.
#[derive(Drop)]
pub struct LineReader {
    buffer: Buffer,
    // The lines and the bytes that were passed.
    lines: u64,
    bytes: usize,
}

impl Model for LineReader {
    ghost use Rattle.std.specs.Prelude.{◌+◌, ◌≤◌, length};
    ghost use Rattle.port_core.specs.Contents.{input_limit};
    ghost use Rattle.port_core.specs.Readers.{LineReaderView};

    ghost Value = { LineReaderView };

    ghost view = { λ reader. record {
      held = reader.buffer.held;
      text = reader.buffer.text;
      position = record { lines = reader.lines; bytes = reader.bytes };
    } };

    ghost invariant = { λ reader. (reader.lines ≤ reader.bytes) × (reader.bytes ≤ input_limit)
        × (reader.bytes + length reader.buffer.held ≤ input_limit + 1) };
}

impl LineReader {
    /// A reader that has given nothing.
    pub fn new(alloc: Global) -> Result<LineReader, OutOfMemory>
        ensures { IfOk result (λ reader.
            reader ≡ record { held = []; text = []; position = start }) }
    {
        Ok(LineReader {
            buffer: Buffer::new(alloc)?,
            lines: 0,
            bytes: 0,
        })
    }

    /// The content last given; empty before the first.
    pub fn text(&self) -> &[u8]
        ensures { result.now ≡ self.now.text }
    {
        self.buffer.text()
    }

    /// The number of the line passed last, given or not; 0 before the first. The line that is due,
    /// or the input's end, has the number after it.
    pub fn number(&self) -> u64
        ensures { result ≡ self.now.position.lines }
    {
        self.lines
    }

    /// Gives the next content. After a fault a later call reads on; after `LineTooLong` and
    /// `InputTooLong` it returns the same for good.
    pub fn next<S: Source>(&mut self, source: &mut S) -> Result<Line, ReadStop>
        // If the source shows its bytes: what was still to come, and what is.
        ensures gives { NextGives (contents_to_come self.old (S.left source.old))
            (contents_to_come self.new (S.left source.new)) self.new.text result }
        ensures leaves { LeavesReader self.new (S.left source.new) result }

        // Which lines of the input were passed, whole, and that they gave this and nothing else.
        ensures passes { PassesTo self.old self.new (S.left source.old) (S.left source.new)
            (S.ended source.old) (S.ended source.new) (given_by result self.new.text) }
        ensures moves { MovesOn self.old self.new result }
        ensures kept { KeepsText self.old self.new result }

        // Each byte taken is kept or passed, and at most one past the input's limit is taken. None
        // is while an answer is in hand, and none after the read that completes one.
        ensures takes { TakesInput self.old self.new (S.left source.old) (S.left source.new) }
        ensures within { bytes_taken self.new ≤ input_limit + 1 }
        ensures ready { HasAnswer self.old → source.new ≡ source.old }
        ensures last { StopsAtAnswer S.left S.reads self.old self.new source.old source.new result }

        // A fault only if the source counted one, and a stop for good.
        ensures cause { CountsNext (S.faults source.old) (S.faults source.new) result }
        ensures stopped { StaysStopped self.old self.new result }
    {
        'lines: loop {
            let most = self.most();
            let due = await_line(&mut self.buffer, most, source);
            if let Some(result) = self.end_wait(due) {
                return result;
            }
        }
    }

    // What comes of the line that is due, after the wait for it.
    #[inline(always)]
    fn end_wait(&mut self, due: Due) -> Option<Result<Line, ReadStop>>
        requires { IsWithin self.old due }
        ensures answer { EndsWait self.old self.new due result }
        ensures kept { LineKeepsText self.old self.new result }
        ensures count { bytes_taken self.new ≡ bytes_taken self.old }
    {
        match due {
            Due::Ended(place) => self.end_line(place),
            Due::Open => self.end_input(),
            Due::Failed => Some(Err(ReadStop::ReadFault)),
            Due::Stuck => {
                let number = self.lines + 1;
                Some(Err(ReadStop::LineTooLong { number }))
            }
            Due::Full => {
                let number = self.lines + 1;
                Some(Err(ReadStop::InputTooLong { number }))
            }
        }
    }

    // The most bytes that may be in hand: one past the input's limit shows that it is passed.
    fn most(&self) -> usize
        ensures value { result ≡ most_held self.now }
        ensures sum { self.now.position.bytes + result ≡ input_limit + 1 }
        ensures some { 0 < result }
        ensures within { length self.now.held ≤ result }
    {
        INPUT_LIMIT + 1 - self.bytes
    }

    // A line ends with the LF at this place in hand.
    fn end_line(&mut self, place: usize) -> Option<Result<Line, ReadStop>>
        requires limit { place ≤ LINE_LIMIT }
        requires within { place < length self.old.held }
        ensures { EndsLine self.old self.new place result }
    {
        if INPUT_LIMIT <= self.bytes + place {
            let number = self.lines + 1;
            return Some(Err(ReadStop::InputTooLong { number }));
        }
        given(self.pass(place, place + 1))
    }

    // The input ends after the bytes in hand.
    fn end_input(&mut self) -> Option<Result<Line, ReadStop>>
        requires limit { length self.old.held ≤ LINE_LIMIT }
        requires room { bytes_taken self.old ≤ INPUT_LIMIT }
        ensures { EndsInput self.old self.new result }
    {
        let count = self.buffer.bytes().len();
        if count == 0 {
            let number = self.lines + 1;
            return Some(Ok(Line::End { number }));
        }
        given(self.pass(count, count))
    }

    // Passes the first line in hand. Its text ends at `end`, and its bytes at `after`.
    fn pass(&mut self, end: usize, after: usize) -> Option<Line>
        requires limit { end ≤ LINE_LIMIT }
        requires order { end ≤ after }
        requires some { 0 < after }
        requires within { after ≤ length self.old.held }
        requires room { self.old.position.bytes + after ≤ INPUT_LIMIT }
        ensures { PassesLine self.old self.new end after result }
    {
        let text = &self.buffer.bytes()[..end];
        let (from, to) = content_of(text, self.lines == 0);
        let skipped = is_skipped(&text[from..to]);
        self.lines += 1;
        self.bytes += after;
        if skipped {
            self.buffer.drop_prefix(after);
            return None;
        }
        self.buffer.give_prefix(from, to, after);
        let number = self.lines;
        Some(Line::Text { number })
    }
}

fn given(line: Option<Line>) -> Option<Result<Line, ReadStop>>
    ensures { result ≡ option_map Ok line }
{
    match line {
        Some(line) => Some(Ok(line)),
        None => None,
    }
}
