//! The program: `futmax MODE`, with the input on standard input and all rows on standard output.
//!
//! What it promises is what `futmax_main::futmax` promises of its two devices; it prints nothing by
//! itself.
#![tactic(auto)]

use futmax_main::{Status, futmax};
use port_core::{StdSink, StdSource};
use std::alloc::Global;
use std::process::ExitCode;
use std::rt::Env;
use std::{env, io};
use worker_gate::OpenGate;

// Without memory for the words nothing is read and nothing is written.
fn main(rt: HostRuntime) -> ExitCode {
    let Ok(words) = words(&rt) else {
        return ExitCode::from(Status::OutOfMemory.code());
    };
    let mut source = StdSource::new(rt.stdin());
    let mut sink = StdSink::new(io::writer(&rt));
    let status = futmax(&rt, rt.alloc(), words, &mut source, &mut sink, &OpenGate);
    ExitCode::from(status.code())
}

fn words(rt: &(impl Env + Alloc<A = Global>)) -> io::Result<Vec<String>> {
    let mut words = Vec::new(rt.alloc());
    for word in env::args(rt)? {
        words.push(word)?;
    }
    Ok(words)
}
