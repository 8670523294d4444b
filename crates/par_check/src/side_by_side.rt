//! The runs of a report read several at a time, and taken one after another.

ghost use Rattle.std.specs.Prelude.{◌≡◌, ◌≤◌, All, IfOk, Ok, length};
ghost use Rattle.par_check.specs.Places.{IsIn, IsWholeReport, ReadsWhole};

use crate::places::{Place, Run, RunJudged, RunRead, Whole, is_same_place, read_both};
use crate::reading::read_run;
use crate::runs::{Shares, runs_from};
use cert_check::CheckStopAt;
use league_core::OutOfMemory;
use rayon::prelude::*;
use std::alloc::AllocError;
use std::thread::Threads;

// The first lines of a report, which are read together; each time after that the lines that are
// read together are as many as the processors could have read before one after another.
const FIRST_LINES: usize = 8_192;

// A run has so many lines at least, but for the last of those that are read together.
const LEAST_RUN: usize = 256;

// So many times lines are read together, at most; what is left then is read on one thread.
const MOST_BATCHES: usize = 64;

/// Reads a report from a place on, several runs at a time, as far as each begins where the one
/// before it ends.
pub fn read_together<R: Threads + Sync>(
    rt: &R,
    whole: &Whole,
    processors: usize,
    from: Place,
) -> Result<RunRead, CheckStopAt>
    requires whole { IsWholeReport whole.now }
    requires from { IsIn whole.now from }
    ensures { ReadsWhole whole.now from result }
{
    let mut reached = RunRead {
        to: from,
        unsettled: 0,
    };
    for _batch in 0..MOST_BATCHES {
        let shares = shares_at(processors, reached.to.next, whole.lines.len());
        let before = reached.to.next;
        match read_more(rt, whole, shares, from, reached) {
            Ok(more) => reached = more,
            Err(stop) => return Err(stop),
        }
        let gone = reached.to.next.saturating_sub(before);
        if gone < shares.lines || reached.to.next >= whole.lines.len() {
            return Ok(reached);
        }
    }
    Ok(reached)
}

// The lines that are read together from a line on, and those of one run: two runs a processor,
// since runs differ.
fn shares_at(processors: usize, next: usize, lines: usize) -> Shares {
    let others = processors.saturating_sub(1);
    let wanted = next.saturating_mul(others).max(FIRST_LINES);
    let lines = wanted.min(lines.saturating_sub(next));
    let run = lines / processors.saturating_mul(2).max(1);
    Shares {
        lines,
        run: run.max(LEAST_RUN),
    }
}

// Reads a batch behind what was read from a place on.
fn read_more<R: Threads + Sync>(
    rt: &R,
    whole: &Whole,
    shares: Shares,
    from: Place,
    reached: RunRead,
) -> Result<RunRead, CheckStopAt>
    requires whole { IsWholeReport whole.now }
    requires reads { ReadsWhole whole.now from (Ok reached) }
    ensures { ReadsWhole whole.now from result }
{
    match read_batch(rt, whole, shares, reached.to) {
        Ok(more) => Ok(read_both(reached, more)),
        Err(stop) => Err(stop),
    }
}

fn read_batch<R: Threads + Sync>(
    rt: &R,
    whole: &Whole,
    shares: Shares,
    from: Place,
) -> Result<RunRead, CheckStopAt>
    requires whole { IsWholeReport whole.now }
    requires from { IsIn whole.now from }
    ensures { ReadsWhole whole.now from result }
{
    let runs = runs_from(whole, from, shares)?;
    let judged = judge_runs(rt, whole, runs.as_slice())?;
    joined(whole, judged.as_slice(), from)
}

// What runs come to, several at a time.
fn judge_runs<R: Threads + Sync>(
    rt: &R,
    whole: &Whole,
    runs: &[Run],
) -> Result<Vec<RunJudged>, OutOfMemory>
    requires whole { IsWholeReport whole.now }
    requires runs { All (λ run. IsIn whole.now run.from) runs.now }
    ensures { IfOk result (λ judged.
        All (λ it. ReadsWhole whole.now it.from it.ending) judged.items) }
{
    match judge_each(rt, whole, runs) {
        Ok(judged) => Ok(judged),
        Err(_) => Err(OutOfMemory),
    }
}

fn judge_each<R: Threads + Sync>(
    rt: &R,
    whole: &Whole,
    runs: &[Run],
) -> Result<Vec<RunJudged>, AllocError>
    requires whole { IsWholeReport whole.now }
    requires runs { All (λ run. IsIn whole.now run.from) runs.now }
    ensures { IfOk result (λ judged.
        All (λ it. ReadsWhole whole.now it.from it.ending) judged.items) }
{
    runs.par_iter()
        .with_min_len(1)
        .map(
            |run: &Run| -> RunJudged
                requires { IsWholeReport whole.now × IsIn whole.now run.now.from }
                ensures { ReadsWhole whole.entry.now result.from result.ending }
            { judge_run(whole, *run) },
        )
        .collect(rt, whole.alloc)
}

fn judge_run(whole: &Whole, run: Run) -> RunJudged
    requires whole { IsWholeReport whole.now }
    requires from { IsIn whole.now run.from }
    ensures { ReadsWhole whole.now result.from result.ending }
{
    RunJudged {
        from: run.from,
        ending: read_run(whole, run),
    }
}

// The runs that were judged, one after another, where each begins at the place that was reached.
fn joined(whole: &Whole, judged: &[RunJudged], from: Place) -> Result<RunRead, CheckStopAt>
    requires whole { IsWholeReport whole.now }
    requires from { IsIn whole.now from }
    requires judged { All (λ it. ReadsWhole whole.now it.from it.ending) judged.now }
    ensures { ReadsWhole whole.now from result }
{
    let mut reached = RunRead {
        to: from,
        unsettled: 0,
    };
    for at in 0..judged.len() {
        match join(whole, from, reached, judged[at]) {
            Ok(more) => reached = more,
            Err(stop) => return Err(stop),
        }
    }
    Ok(reached)
}

// A run behind what was read from a place on, if it begins there.
fn join(
    whole: &Whole,
    from: Place,
    reached: RunRead,
    run: RunJudged,
) -> Result<RunRead, CheckStopAt>
    requires whole { IsWholeReport whole.now }
    requires reads { ReadsWhole whole.now from (Ok reached) }
    requires judged { ReadsWhole whole.now run.from run.ending }
    ensures { ReadsWhole whole.now from result }
{
    if is_same_place(run.from, reached.to) {
        join_next(whole, from, reached, run)
    } else {
        Ok(reached)
    }
}

// A run that begins there.
fn join_next(
    whole: &Whole,
    from: Place,
    reached: RunRead,
    run: RunJudged,
) -> Result<RunRead, CheckStopAt>
    requires whole { IsWholeReport whole.now }
    requires reads { ReadsWhole whole.now from (Ok reached) }
    requires judged { ReadsWhole whole.now run.from run.ending }
    requires next { run.from ≡ reached.to }
    ensures { ReadsWhole whole.now from result }
{
    match run.ending {
        Ok(more) => Ok(read_both(reached, more)),
        Err(stop) => Err(stop),
    }
}
