//! Which lines come, in which pieces, and after which faults.

ghost use Rattle.std.specs.Prelude.{◌<◌};

use crate::line_telling::{answers, lines_told, memory};
use crate::rows::{compare, number, part, rows};
use port_core::{LineReader, StdSource};
use std::alloc::Global;
use std::io;
use std::io::Read;
use std::process::Abort;
use std::test::Fail;

// An input, and all that comes.
const INPUTS: &[u8] =
    b"~.1.1@\n~.2.2@one~one1|.2.2@one\n~one1|.2.2@\r\n# a\r\none\r\n\n#~one3|.6.6@\
    one\r~one1|.2.2@a\r\r\nb\rc\n\r~a\r1|b\rc2|.4.4@#a\rb\nc~c2|.3.3@\x20#a~ #a1|.2.2@\
    \xef\xbb\xbfa\n\xef\xbb\xbfb~a1|\xef\xbb\xbfb2|.3.3@\xef\xbb\xbf#a\nb~b2|.3.3@\
    \xef\xbb\xbf\r\nb~b2|.3.3@\xef\xbb\xbf\xef\xbb\xbf#~\xef\xbb\xbf#1|.2.2@\
    \xef\xbb~\xef\xbb1|.2.2";

// The call that fails, and all that comes. Without a fault the calls give `ab`, then CR and LF,
// then `#c`, then two LF, then `d`, and from then on the end.
const FAULTS: &[u8] = b"1~!ab1|d4|.5.5@2~!ab1|d4|.5.5@3~ab1|!d4|.5.5@4~ab1|!d4|.5.5@\
    5~ab1|!d4|.5.5@6~ab1|!d4|.5.5@7~ab1|d4|!.5.5@8~ab1|d4|.5!.5";

fn check_piece(rt: &impl Abort, alloc: Global, row: &[u8], piece: usize) -> Result<(), Fail>
    requires { 0 < piece }
{
    let out = lines_told(alloc, part(row, 0), piece, &[])?;
    compare(rt, row, out.as_slice(), part(row, 1));
    Ok(())
}

fn check_row(rt: &impl Abort, alloc: Global, row: &[u8]) -> Result<(), Fail> {
    check_piece(rt, alloc, row, 1)?;
    check_piece(rt, alloc, row, 2)?;
    check_piece(rt, alloc, row, 7)?;
    check_piece(rt, alloc, row, 100)
}

#[test]
fn lines_come_in_pieces_of_any_size(rt: HostRuntime) -> Result<(), Fail> {
    for row in rows(rt.alloc(), INPUTS)? {
        check_row(&rt, rt.alloc(), row)?;
    }
    Ok(())
}

fn check_fault(rt: &impl Abort, alloc: Global, row: &[u8]) -> Result<(), Fail> {
    let call = u64::from(number(row, 0)?);
    let out = lines_told(alloc, b"ab\r\n#c\n\nd", 2, &[call])?;
    compare(rt, row, out.as_slice(), part(row, 1));
    Ok(())
}

#[test]
fn a_fault_at_any_call_loses_nothing(rt: HostRuntime) -> Result<(), Fail> {
    for row in rows(rt.alloc(), FAULTS)? {
        check_fault(&rt, rt.alloc(), row)?;
    }
    Ok(())
}

fn told_from_std(alloc: Global) -> Result<Vec<u8>, Fail> {
    let mut source = StdSource::new(b"one\ntwo".as_slice());
    answers(alloc, &mut source)
}

#[test]
fn lines_come_from_std(rt: HostRuntime) -> Result<(), Fail> {
    let out = told_from_std(rt.alloc())?;
    assert_eq!(rt; out.as_slice(), b"one1|two2|.3.3".as_slice());
    Ok(())
}

// A reader that gives two bytes at a call, and of which the second call fails.
#[derive(Drop)]
struct Faulty<'a> {
    left: &'a [u8],
    calls: u8,
}

impl Read for Faulty<'_> {
    fn read(&mut self, buf: &mut [u8]) -> io::Result<usize> {
        self.calls = self.calls.saturating_add(1);
        if self.calls == 2 {
            return Err(io::ErrorKind::ConnectionReset.into());
        }
        let end = buf.len().min(2);
        self.left.read(&mut buf[..end])
    }
}

fn told_from_faulty(alloc: Global) -> Result<Vec<u8>, Fail> {
    let left: &[u8] = b"ab\r\n#c\n\nd";
    let mut source = StdSource::new(Faulty { left, calls: 0 });
    answers(alloc, &mut source)
}

// The fault is told once, no byte is lost, and the rest comes with the reads after it.
#[test]
fn a_fault_of_std_loses_nothing(rt: HostRuntime) -> Result<(), Fail> {
    let out = told_from_faulty(rt.alloc())?;
    assert_eq!(rt; out.as_slice(), b"!ab1|d4|.5.5".as_slice());
    Ok(())
}

fn may_move_to_a_thread<T: Send>(_value: &T) {}

#[test]
fn a_reader_and_its_source_may_move_to_a_thread(rt: HostRuntime) -> Result<(), Fail> {
    may_move_to_a_thread(&LineReader::new(rt.alloc())?);
    may_move_to_a_thread(&memory(rt.alloc(), b"", 1, &[])?);
    may_move_to_a_thread(&StdSource::new(b"".as_slice()));
    Ok(())
}
