//! A source over memory, for tests and for callers that have their input whole.

ghost use Rattle.std.specs.Prelude.{◌≡◌, ◌<◌, Some, false, length};
ghost use Rattle.port_core.specs.Ports.{CountsRead, HoldsOfRead, Reads, TellsEnd};
ghost use Rattle.port_core.specs.inside.Memory.{HandsOut, supply_after, supply_answer};

use crate::bytes::copy_to_start;
use crate::ports::{Got, Source};
use std::marker::Model;

/// Shows its bytes, and gives them in pieces. Chosen calls fail.
#[derive(Drop)]
pub struct MemSource {
    bytes: Vec<u8>,
    at: usize,
    piece: usize,
    fail: Vec<u64>,
    calls: u64,
    faults: u64,
    ended: bool,
}

impl Model for MemSource {
    ghost use Rattle.std.specs.Prelude.{◌<◌, ◌≤◌, drop, vec_len};
    ghost use Rattle.port_core.specs.inside.Memory.{MemSourceView};

    ghost Value = { MemSourceView };

    ghost view = { λ s. record {
      left = drop s.at s.bytes.items;
      piece = s.piece;
      fail = s.fail.items;
      calls = s.calls;
      faults = s.faults;
      ended = s.ended;
    } };

    ghost invariant = { λ s. (s.at ≤ vec_len s.bytes) × (0 < s.piece) };
}

impl MemSource {
    /// Gives at most `piece` of the bytes a call, a number above 0. The calls whose numbers, from
    /// 1, are in `fail` fail, and lose no byte.
    pub fn new(bytes: Vec<u8>, piece: usize, fail: Vec<u64>) -> MemSource
        requires { 0 < piece }
        ensures { result ≡ record {
          left = bytes.items;
          piece = piece;
          fail = fail.items;
          calls = 0;
          faults = 0;
          ended = false;
        } }
    {
        MemSource {
            bytes,
            at: 0,
            piece,
            fail,
            calls: 0,
            faults: 0,
            ended: false,
        }
    }
}

impl Source for MemSource {
    ghost left = { λ source. Some source.left };

    ghost faults = { λ source. source.faults };

    ghost reads = { λ old bytes new. HandsOut old bytes new };

    ghost ended = { λ source. source.ended };

    fn read(&mut self, into: &mut [u8]) -> Got
        requires { 0 < length into.old }
        ensures bytes { Reads (Some self.old.left) (Some self.new.left) result into.new }
        ensures cause { CountsRead self.old.faults self.new.faults result }
        ensures step { HoldsOfRead (λ bytes. HandsOut self.old bytes self.new) result into.new }
        ensures end { TellsEnd self.old.ended self.new.ended result }
        ensures answer { result ≡ supply_answer self.old (length into.old) }
        ensures after { self.new ≡ supply_after self.old (length into.old) }
    {
        self.calls = self.calls.saturating_add(1);
        if self.fail.contains(&self.calls) {
            self.faults = self.faults.saturating_add(1);
            return Got::Failed;
        }
        let rest = &self.bytes[self.at..];
        let count = self.piece.min(into.len()).min(rest.len());
        copy_to_start(into, &rest[..count]);
        self.at += count;
        self.ended = self.ended || count == 0;
        Got::Bytes(count)
    }
}
