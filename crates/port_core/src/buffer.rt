//! The bytes that were read and not yet passed, the text last given, and the wait for the end of a
//! line.
//!
//! They stand in a room of fixed size, so no call takes memory. A text stays where it was read: it
//! and what is in hand of a line are moved to the start of the room once, before the first read for
//! that line, and bytes in which a search found no LF are not searched again after a read.

ghost use Rattle.std.specs.Prelude.{◌≡◌, ◌+◌, ◌<◌, ◌≤◌, [], IfOk, MatchOption, drop, length, take};
ghost use Rattle.std.specs.Io.KnownBytes.{prepend_known};
ghost use Rattle.port_core.specs.Ports.{CountsRead, TellsEnd};
ghost use Rattle.port_core.specs.Lines.{HasNoLineFeed};
ghost use Rattle.port_core.specs.inside.Buffers.{CountsDue, EndSeen, EndsAt, Fills, IsDue, IsReady};
ghost use Rattle.port_core.specs.inside.Buffers.{StopsReading, Takes, part};

use crate::bytes::{find_line_feed, gather};
use crate::line::LINE_LIMIT;
use crate::ports::{Got, Source};
use league_core::OutOfMemory;
use std::alloc::Global;
use std::marker::Model;

/// How many bytes the room has, for the text last given and those in hand.
pub const ROOM: usize = 8192;

/// What came of the wait for a line: its end stands at a place, or the input ended, or the source
/// failed, or the line is too long, or no more bytes may be in hand.
#[derive(Clone, Copy)]
pub enum Due {
    Ended(usize),
    Open,
    Failed,
    Stuck,
    Full,
}

/// The bytes in hand, and before them in the room the text last given.
#[derive(Drop)]
pub struct Buffer {
    bytes: Vec<u8>,
    text_from: usize,
    text_to: usize,
    from: usize,
    to: usize,
}

impl Model for Buffer {
    ghost use Rattle.std.specs.Prelude.{◌≡◌, ◌+◌, ◌≤◌, vec_len};
    ghost use Rattle.port_core.specs.inside.Buffers.{BufferView, part};
    ghost use Rattle.port_core.specs.declared.buffer.TheConstants.{ROOM};
    ghost use Rattle.port_core.specs.declared.line.TheConstants.{LINE_LIMIT};

    ghost Value = { BufferView };

    ghost view = { λ w. record {
      held = part w.from w.to w.bytes.items;
      text = part w.text_from w.text_to w.bytes.items;
    } };

    ghost invariant = { λ w. (w.text_from ≤ w.text_to) × (w.text_to ≤ w.text_from + LINE_LIMIT)
        × (w.text_to ≤ w.from) × (w.from ≤ w.to) × (w.to ≤ ROOM) × (vec_len w.bytes ≡ ROOM) };
}

impl Buffer {
    /// Nothing in hand and no text, with the room for all that may be.
    pub fn new(alloc: Global) -> Result<Buffer, OutOfMemory>
        ensures { IfOk result (λ buffer. buffer ≡ record { held = []; text = [] }) }
    {
        Ok(Buffer {
            bytes: vec![in alloc; 0u8; ROOM]?,
            text_from: 0,
            text_to: 0,
            from: 0,
            to: 0,
        })
    }

    /// All bytes in hand.
    pub fn bytes(&self) -> &[u8]
        ensures value { result.now ≡ self.now.held }
        ensures room { length self.now.held ≤ ROOM }
    {
        &self.bytes[self.from..self.to]
    }

    /// The text last given.
    pub fn text(&self) -> &[u8]
        ensures { result.now ≡ self.now.text }
    {
        &self.bytes[self.text_from..self.text_to]
    }

    /// Drops the first bytes in hand.
    pub fn drop_prefix(&mut self, count: usize)
        requires { count ≤ length self.old.held }
        ensures { self.new ≡ record { held = drop count self.old.held; text = self.old.text } }
    {
        self.from += count;
    }

    /// Drops the first bytes in hand, and a part of them is the text from now on.
    pub fn give_prefix(&mut self, from: usize, to: usize, count: usize)
        requires order { (from ≤ to) × (to ≤ count) }
        requires limit { to ≤ LINE_LIMIT }
        requires within { count ≤ length self.old.held }
        ensures { self.new ≡ record {
          held = drop count self.old.held;
          text = part from to self.old.held;
        } }
    {
        self.text_from = self.from + from;
        self.text_to = self.from + to;
        self.from += count;
    }

    /// One read, whose bytes come after those in hand; there are at most `most` in hand then. It
    /// takes at most what the text and the bytes in hand leave of the room.
    pub fn fill<S: Source>(&mut self, source: &mut S, most: usize) -> Got
        requires short { length self.old.held ≤ LINE_LIMIT }
        requires some { length self.old.held < most }
        ensures bytes { Fills (S.left source.old) (S.left source.new)
            (λ bytes. S.reads source.old bytes source.new) result self.old.held self.new.held }
        ensures text { self.new.text ≡ self.old.text }
        ensures within { length self.new.held ≤ most }
        ensures cause { CountsRead (S.faults source.old) (S.faults source.new) result }
        ensures end { TellsEnd (S.ended source.old) (S.ended source.new) result }
    {
        let kept = self.text_to - self.text_from;
        let count = self.to - self.from;
        gather(
            &mut self.bytes,
            (self.text_from, self.text_to),
            (self.from, self.to),
        );
        self.text_from = 0;
        self.text_to = kept;
        self.from = kept;
        self.to = kept + count;
        let end = kept + most.min(ROOM - kept);
        let got = source.read(&mut self.bytes[kept + count..end]);
        if let Got::Bytes(count) = &got {
            self.to += *count;
        }
        got
    }
}

/// The place of the first LF. The first `seen` bytes are known to have none.
pub fn line_end(bytes: &[u8], seen: usize) -> Option<usize>
    requires within { seen ≤ length bytes.now }
    requires unended { HasNoLineFeed (take seen bytes.now) }
    ensures { MatchOption result (HasNoLineFeed bytes.now)
        (λ place. EndsAt bytes.now place × (place < length bytes.now)) }
{
    match find_line_feed(&bytes[seen..]) {
        Some(place) => Some(seen + place),
        None => None,
    }
}

/// Reads until the line that is due is whole, is too long, or cannot go on. At most `most` bytes
/// are in hand then.
pub fn await_line<S: Source>(buffer: &mut Buffer, most: usize, source: &mut S) -> Due
    ensures stream { prepend_known buffer.old.held (S.left source.old)
        ≡ prepend_known buffer.new.held (S.left source.new) }
    ensures due { IsDue most buffer.new.held (S.left source.new) result }
    ensures text { buffer.new.text ≡ buffer.old.text }
    ensures within { length buffer.old.held ≤ most → length buffer.new.held ≤ most }
    ensures takes { Takes buffer.old.held buffer.new.held (S.left source.old) (S.left source.new) }
    ensures last { StopsReading S.left S.reads most buffer.old.held buffer.new.held
        source.old source.new result }
    ensures end { EndSeen (S.ended source.old) (S.ended source.new) result }
    ensures cause { CountsDue (S.faults source.old) (S.faults source.new) result }
    ensures ready { IsReady buffer.old.held
        → (source.new ≡ source.old) × (buffer.new.held ≡ buffer.old.held) }
    ensures full { most ≤ length buffer.old.held
        → (source.new ≡ source.old) × (buffer.new.held ≡ buffer.old.held) }
{
    let mut seen = 0;
    'reads: loop {
        if let Some(place) = line_end(buffer.bytes(), seen) {
            return if place <= LINE_LIMIT {
                Due::Ended(place)
            } else {
                Due::Stuck
            };
        }
        seen = buffer.bytes().len();
        if LINE_LIMIT < seen {
            return Due::Stuck;
        }
        if most <= seen {
            return Due::Full;
        }
        match buffer.fill(source, most) {
            Got::Failed => return Due::Failed,
            Got::Bytes(0) => return Due::Open,
            Got::Bytes(_) => {}
        }
    }
}
