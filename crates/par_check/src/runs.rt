//! A report cut into runs by the first bytes of its lines.

ghost use Rattle.std.specs.Prelude.{◌<◌, ◌≤◌, ◌++◌, ◌∷◌, [], ◌≡◌, All, IfOk, OnErr, OnOk, length};
ghost use Rattle.par_check.specs.Places.{IsIn, IsWholeReport};

use crate::item_rows::rows_in_answer;
use crate::places::{Place, Run, Whole};
use kept_lines::LineList;
use league_core::OutOfMemory;

/// How many lines are cut, and how many of them each run has at least.
#[derive(Clone, Copy)]
pub struct Shares {
    pub lines: usize,
    pub run: usize,
}

// What a line is by its first byte.
#[derive(Clone, Copy)]
enum LineKind {
    Row,
    Proof,
    Other,
}

/// Runs from a place on, each but the last with at least its share of lines. A line that begins as
/// a row is taken for the one that is due next: where it is not, the reading shows it.
pub fn runs_from(whole: &Whole, from: Place, shares: Shares) -> Result<Vec<Run>, OutOfMemory>
    requires whole { IsWholeReport whole.now }
    requires from { IsIn whole.now from }
    ensures { IfOk result (λ runs. All (λ run. IsIn whole.now run.from) runs.items) }
{
    let mut runs = Vec::new(whole.alloc);
    let mut begun = from;
    let mut due = from;
    for at in from.next..last_looked_at(whole, from, shares) {
        let kind = kind_at(whole.lines, at);
        begun = begin_before(whole, &mut runs, (begun, due), kind, shares.run)?;
        if begun.next.saturating_sub(from.next) >= shares.lines {
            return Ok(runs);
        }
        due = due_behind(whole, due, kind, at + 1);
    }
    add(&mut runs, last_run(whole, begun))?;
    Ok(runs)
}

// Up to where lines are looked at: an item that is longer than all that is to be read together is
// left to one thread.
fn last_looked_at(whole: &Whole, from: Place, shares: Shares) -> usize
    ensures { result ≤ length whole.now.lines.now }
{
    let most = from.next.saturating_add(shares.lines.saturating_mul(2));
    most.min(whole.lines.len())
}

// Where the run begins that a line is in: at a row here, if the one before is long enough.
fn begin_before(
    whole: &Whole,
    runs: &mut Vec<Run>,
    cut: (Place, Place),
    kind: LineKind,
    least: usize,
) -> Result<Place, OutOfMemory>
    requires begun { IsIn whole.now cut.0 }
    requires due { IsIn whole.now cut.1 }
    requires runs { All (λ run. IsIn whole.now run.from) runs.old.items }
    ensures runs { All (λ run. IsIn whole.now run.from) runs.new.items }
    ensures begun { IfOk result (λ it. IsIn whole.now it) }
{
    let (begun, due) = cut;
    if matches!(kind, LineKind::Row) && due.next.saturating_sub(begun.next) >= least {
        add(runs, run_between(begun, due))?;
        Ok(due)
    } else {
        Ok(begun)
    }
}

// What is due behind a line, if the next one is this.
fn due_behind(whole: &Whole, due: Place, kind: LineKind, next: usize) -> Place
    requires whole { IsWholeReport whole.now }
    requires due { IsIn whole.now due }
    requires next { next ≤ length whole.now.lines.now }
    ensures { IsIn whole.now result }
{
    match kind {
        LineKind::Row => behind_row(whole, due, next),
        LineKind::Proof => behind_line(whole, due, next),
        LineKind::Other => due,
    }
}

fn kind_at(lines: &LineList, at: usize) -> LineKind
    requires { at < length lines.now }
{
    match lines.text(at) {
        [b'[', ..] => LineKind::Proof,
        [b'v', ..] => LineKind::Row,
        [b'a', ..] => LineKind::Row,
        _ => LineKind::Other,
    }
}

fn run_between(from: Place, until: Place) -> Run
    ensures { result.from ≡ from }
{
    Run {
        from,
        until_ask: until.ask,
        until_row: until.row,
    }
}

// What is left of a report from a place on.
pub fn last_run(whole: &Whole, from: Place) -> Run
    ensures from { result.from ≡ from }
    ensures all { result.until_ask ≡ length whole.now.asks.now.epochs.items }
{
    Run {
        from,
        until_ask: whole.asks.epochs.len(),
        until_row: 0,
    }
}

fn add(runs: &mut Vec<Run>, run: Run) -> Result<(), OutOfMemory>
    ensures ok { OnOk result (runs.new.items ≡ runs.old.items ++ run ∷ []) }
    ensures err { OnErr result (runs.new.items ≡ runs.old.items) }
{
    runs.push(run)?;
    Ok(())
}

// The same place before a later line.
fn behind_line(whole: &Whole, place: Place, next: usize) -> Place
    requires place { IsIn whole.now place }
    requires next { next ≤ length whole.now.lines.now }
    ensures { IsIn whole.now result }
{
    Place { next, ..place }
}

// The place behind the row that is due at one, if the next line is this.
fn behind_row(whole: &Whole, place: Place, next: usize) -> Place
    requires whole { IsWholeReport whole.now }
    requires place { IsIn whole.now place }
    requires next { next ≤ length whole.now.lines.now }
    ensures { IsIn whole.now result }
{
    if place.row < rows_in_answer(whole.sheet) {
        Place {
            ask: place.ask,
            row: place.row + 1,
            next,
        }
    } else if place.ask < whole.asks.epochs.len() {
        Place {
            ask: place.ask + 1,
            row: 0,
            next,
        }
    } else {
        Place {
            ask: place.ask,
            row: 0,
            next,
        }
    }
}
