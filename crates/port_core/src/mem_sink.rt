//! A sink over memory, for tests.

ghost use Rattle.std.specs.Prelude.{◌≡◌, ◌<◌, [], IfOk, Some, length};
ghost use Rattle.port_core.specs.Ports.{CountsWrite, Writes};
ghost use Rattle.port_core.specs.inside.Memory.{store_after, store_answer};

use crate::ports::{Put, Sink};
use league_core::OutOfMemory;
use std::alloc::Global;
use std::marker::Model;

/// Shows the bytes that it holds, and takes more in pieces. Chosen calls fail, and each call once
/// its room is used.
#[derive(Drop)]
pub struct MemSink {
    bytes: Vec<u8>,
    room: usize,
    piece: usize,
    fail: Vec<u64>,
    calls: u64,
    faults: u64,
}

impl Model for MemSink {
    ghost use Rattle.std.specs.Prelude.{◌<◌, ◌≤◌, vec_len, vec_capacity};
    ghost use Rattle.port_core.specs.inside.Memory.{MemSinkView};

    ghost Value = { MemSinkView };

    ghost view = { λ s. record {
      holds = s.bytes.items;
      room = s.room;
      piece = s.piece;
      fail = s.fail.items;
      calls = s.calls;
      faults = s.faults;
    } };

    ghost invariant = { λ s.
        (vec_len s.bytes ≤ s.room) × (s.room ≤ vec_capacity s.bytes) × (0 < s.piece) };
}

impl MemSink {
    /// Takes room for `room` bytes at once. A call takes at most `piece` of them, a number above 0;
    /// the calls whose numbers, from 1, are in `fail` fail, and so does each once the room is full.
    /// A call that fails takes no byte.
    pub fn new(
        alloc: Global,
        room: usize,
        piece: usize,
        fail: Vec<u64>,
    ) -> Result<MemSink, OutOfMemory>
        requires { 0 < piece }
        ensures { IfOk result (λ sink. sink ≡ record {
          holds = [];
          room = room;
          piece = piece;
          fail = fail.items;
          calls = 0;
          faults = 0;
        }) }
    {
        Ok(MemSink {
            bytes: Vec::with_capacity(alloc, room)?,
            room,
            piece,
            fail,
            calls: 0,
            faults: 0,
        })
    }

    /// The bytes taken so far.
    pub fn bytes(&self) -> &[u8]
        ensures { result.now ≡ self.now.holds }
    {
        self.bytes.as_slice()
    }
}

impl Sink for MemSink {
    ghost holds = { λ sink. Some sink.holds };

    ghost faults = { λ sink. sink.faults };

    fn write(&mut self, piece: &[u8]) -> Put
        requires { 0 < length piece.now }
        ensures bytes { Writes (Some self.old.holds) (Some self.new.holds) result piece.now }
        ensures cause { CountsWrite self.old.faults self.new.faults result }
        ensures answer { result ≡ store_answer self.old (length piece.now) }
        ensures after { self.new ≡ store_after self.old piece.now }
    {
        self.calls = self.calls.saturating_add(1);
        if self.fail.contains(&self.calls) || self.room <= self.bytes.len() {
            self.faults = self.faults.saturating_add(1);
            return Put::Failed;
        }
        let count = self
            .piece
            .min(piece.len())
            .min(self.room - self.bytes.len());
        self.bytes.extend_from_slice(&piece[..count]).unwrap();
        Put::Took(count)
    }
}
