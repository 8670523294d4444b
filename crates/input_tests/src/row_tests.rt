//! Rows that go out over devices in pieces and with faults.

ghost use Rattle.std.specs.Prelude.{◌<◌, length};

use crate::rows::{compare, number, part, rows};
use fixture_sheet::number_written;
use port_core::{MemSink, StdSink, WriteFault, put_line};
use std::alloc::Global;
use std::io;
use std::io::Write;
use std::process::Abort;
use std::test::Fail;

// The room and the pieces of the device, the call that fails, whether the row goes out whole, and
// what is there then.
const DEVICES: &[u8] = b"10~1~~whole~row\n@4~3~~whole~row\n@3~2~~front~row@0~2~~front~@\
    10~2~1~front~@10~2~2~front~ro@10~2~3~whole~row\n";

// The calls of the row's device that fail.
fn failing(alloc: Global, row: &[u8]) -> Result<Vec<u64>, Fail> {
    let mut fail = Vec::new(alloc);
    if let Some(call) = number_written(part(row, 2)) {
        fail.push(u64::from(call))?;
    }
    Ok(fail)
}

fn device(alloc: Global, row: &[u8]) -> Result<MemSink, Fail> {
    let (room, piece) = (number(row, 0)? as usize, number(row, 1)? as usize);
    let fail = failing(alloc, row)?;
    Ok(MemSink::new(alloc, room, piece.max(1), fail)?)
}

fn check_put(rt: &impl Abort, row: &[u8], sink: &mut MemSink) {
    let whole = put_line(sink, b"row\n").is_ok();
    assert!(rt; whole == (part(row, 3) == b"whole".as_slice()), "{row:?}");
    compare(rt, row, sink.bytes(), part(row, 4));
}

fn check_row(rt: &impl Abort, alloc: Global, row: &[u8]) -> Result<(), Fail> {
    let mut sink = device(alloc, row)?;
    check_put(rt, row, &mut sink);
    Ok(())
}

#[test]
fn a_row_goes_out_whole_or_leaves_a_prefix(rt: HostRuntime) -> Result<(), Fail> {
    for row in rows(rt.alloc(), DEVICES)? {
        check_row(&rt, rt.alloc(), row)?;
    }
    Ok(())
}

// A writer that keeps bytes back until it is flushed, as a buffer does; its flush fails if it is
// told to.
#[derive(Drop)]
struct Late {
    kept: Vec<u8>,
    out: Vec<u8>,
    broken: bool,
}

impl Write for Late {
    fn write(&mut self, buf: &[u8]) -> io::Result<usize> {
        self.kept.extend_from_slice(buf)?;
        Ok(buf.len())
    }

    fn flush(&mut self) -> io::Result<()> {
        if self.broken {
            return Err(io::ErrorKind::BrokenPipe.into());
        }
        self.out.extend_from_slice(&self.kept)?;
        self.kept.clear();
        Ok(())
    }
}

fn puts(late: &mut Late, row: &[u8]) -> Result<(), WriteFault>
    requires { 0 < length row.now }
{
    put_line(&mut StdSink::new(late), row)
}

fn has_row(late: &Late) -> bool {
    late.out.as_slice() == b"row\n".as_slice()
}

// A row goes out at once, and none if the flush fails.
fn check_late(rt: &impl Abort, late: &mut Late) {
    let put = puts(late, b"row\n");
    assert!(rt; put == Ok(()) && has_row(late));
    late.broken = true;
    let put = puts(late, b"more\n");
    assert!(rt; put == Err(WriteFault) && has_row(late));
}

fn check_new(rt: &impl Abort, alloc: Global) {
    let mut late = Late {
        kept: Vec::new(alloc),
        out: Vec::new(alloc),
        broken: false,
    };
    check_late(rt, &mut late);
}

fn put_in_two_bytes() -> (Result<(), WriteFault>, [u8; 2]) {
    let mut full = [0u8; 2];
    let mut room = full.as_mut_slice();
    let put = put_line(&mut StdSink::new(&mut room), b"row\n");
    (put, full)
}

#[test]
fn each_row_reaches_std_at_once(rt: HostRuntime) -> Result<(), Fail> {
    check_new(&rt, rt.alloc());
    assert!(rt; put_in_two_bytes() == (Err(WriteFault), *b"ro"));
    Ok(())
}
