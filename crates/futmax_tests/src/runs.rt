//! Runs of the program in memory.

use crate::gates::{set, watch};
use crate::words::words_of;
use futmax_main::{Status, futmax};
use port_core::{MemSink, MemSource, Sink, Source};
use std::alloc::Global;
use std::process::Abort;
use std::sync::Wait;
use std::sync::atomic::AtomicU64;
use std::test::Fail;
use std::thread::{Threads, join};
use std::time::Clock;
use worker_gate::Gate;

/// Two clubs and one match, which is open.
pub const TWO_CLUBS: &[u8] = b"league,Tiny,1\nclub,A,1\nclub,B,2\nmatch,A,B\nline,1\nseason\nask\n";

/// The same, if the match ended 0:0, so that the fixed rank decides.
pub const DRAWN: &[u8] =
    b"league,Tiny,1\nclub,A,1\nclub,B,2\nmatch,A,B\nline,1\nseason\nresult,1,0,0\nask\n";

/// The answer to it.
pub const DRAWN_ROWS: &[u8] = b"ask,1\nverdict,1,A,clinched\nverdict,1,B,lost\n";

/// A source in memory.
pub fn source_of(alloc: Global, text: &[u8]) -> Result<MemSource, Fail> {
    let bytes = text.to_vec(alloc)?;
    Ok(MemSource::new(bytes, 8192, Vec::new(alloc)))
}

/// A sink in memory, of 4,096 bytes.
pub fn sink_of(alloc: Global) -> Result<MemSink, Fail> {
    MemSink::new(alloc, 4096, 4096, Vec::new(alloc)).map_err(|_| "no room".into())
}

/// Whether a run of the mode `verdicts` with so many workers answers all asks. One that does not
/// end fails its test.
pub fn is_answered<
    R: Threads + Wait + Clock + Abort + Sync + Alloc<A = Global>,
    S: Source + Send,
    K: Sink,
    G: Gate + Sync,
>(rt: &R, workers: &str, source: &mut S, sink: &mut K, gate: &G) -> Result<bool, Fail> {
    let words = words_of(rt.alloc(), &["futmax", "verdicts", "--workers", workers])?;
    let ended = AtomicU64::new(0);
    let (_, status) = join(
        rt,
        || watch(rt, &ended),
        || {
            let status = futmax(rt, rt.alloc(), words, source, sink, gate);
            set(&ended);
            status
        },
    );
    Ok(status == Status::Done)
}
