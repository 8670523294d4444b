//! Inputs at the limit, from a source that makes their bytes.

ghost use Rattle.std.specs.Prelude.{◌≤◌, None, length, ⊤};

use crate::words::words_of;
use futmax_main::{Status, futmax};
use port_core::{Got, MemSink, Source};
use std::alloc::Global;
use std::process::Abort;
use std::sync::Wait;
use std::test::Fail;
use std::thread::Threads;
use worker_gate::OpenGate;

// Makes the bytes of an input: comments of 1,024 bytes with their LF, then letters.
#[derive(Drop)]
struct Maker {
    at: usize,
    comments: usize,
    letters: usize,
}

impl Maker {
    fn byte(&self) -> Option<u8> {
        if self.at / 1024 < self.comments {
            return Some(if self.at % 1024 == 1023 { b'\n' } else { b'#' });
        }
        if self.at / 1024 == self.comments && self.at % 1024 < self.letters {
            return Some(b'x');
        }
        None
    }

    fn fill(&mut self, into: &mut [u8]) -> usize
        ensures { result ≤ length into.old }
    {
        for (count, place) in into.iter_mut().enumerate() {
            let Some(byte) = self.byte() else {
                return count;
            };
            *place = byte;
            self.at = self.at.wrapping_add(1);
        }
        into.len()
    }
}

// Gives what the maker makes, as much as a read asks for.
#[derive(Drop)]
struct Made {
    maker: Maker,
    ended: bool,
}

impl Source for Made {
    ghost left = { λ source. None };

    ghost faults = { λ source. 0 };

    // No test speaks of its last read.
    ghost reads = { λ _ _ _. ⊤ };

    ghost ended = { λ source. source.ended };

    fn read(&mut self, into: &mut [u8]) -> Got {
        let count = self.maker.fill(into);
        self.ended = self.ended || count == 0;
        Got::Bytes(count)
    }
}

// 65,536 comments of 1,024 bytes are as many bytes as an input may have.
fn check_run(
    rt: &(impl Abort + Threads + Wait + Sync + Alloc<A = Global>),
    letters: usize,
    wanted: Status,
    row: &str,
) -> Result<(), Fail> {
    let maker = Maker {
        at: 0,
        comments: 65536,
        letters,
    };
    let mut source = Made {
        maker,
        ended: false,
    };
    let mut sink = MemSink::new(rt.alloc(), 100, 100, Vec::new(rt.alloc()))?;
    let words = words_of(rt.alloc(), &["futmax", "verdicts"])?;
    let status = futmax(rt, rt.alloc(), words, &mut source, &mut sink, &OpenGate);
    assert_eq!(rt; status, wanted);
    assert_eq!(rt; sink.bytes(), row.as_bytes());
    Ok(())
}

#[test]
fn an_input_as_long_as_may_be_and_one_byte_more(rt: HostRuntime) -> Result<(), Fail> {
    check_run(&rt, 0, Status::BadSheet, "fault,65537,no_league\n")?;
    check_run(&rt, 1, Status::TooLong, "fault,65537,input_too_long\n")
}
