//! A report cut into items, by the grammar alone.

ghost use Rattle.std.specs.Prelude.{◌≡◌, ◌<◌, ◌≤◌, ◌^◌, [], ◌∷◌, ◌++◌, All, Err, IfOk, IsTrue};
ghost use Rattle.std.specs.Prelude.{OnErr, OnOk, length};
ghost use Rattle.cert_check.specs.Machine.{rows_of};
ghost use Rattle.cert_check.specs.inside.Pieces.{rows_wanted, wanted_by_ask};
ghost use Rattle.par_check.specs.FirstStops.{reports};
ghost use Rattle.par_check.specs.Cuts.{AreAsks, CutsOver, IsReportCut, IsCutRead, KeepsItems};
ghost use Rattle.par_check.specs.Cuts.{IsItemIn};
ghost use Rattle.par_check.specs.Cuts.{end_outlined, is_of_lines, row_wanted};
ghost use Rattle.par_check.specs.Checked.{IsToldByItems};

use crate::asks::{Asks, Cut, Item, advance};
use crate::item_rows::{row_at, rows_in_answer};
use crate::outline::outline;
use cert_check::{AskedPart, CheckStop, CheckStopAt, PartRead, Report};
use kept_lines::LineList;
use league_core::{OutOfMemory, Season, Sheet};
use std::alloc::Global;

/// A cut with what the grammar alone comes to.
#[derive(Drop)]
pub struct CutRead {
    pub items: Vec<Item>,
    pub ending: Result<PartRead, CheckStopAt>,
}

/// Cuts a report into its items by the grammar alone, up to the first line that may not come where
/// it stands.
pub fn cut(alloc: Global, sheet: &Sheet, asks: &Asks, lines: &LineList) -> Result<Cut, OutOfMemory>
    requires asks { AreAsks sheet.now asks.now }
    requires few { length lines.now < 2 ^ 32 }
    ensures cut { IfOk result (IsReportCut sheet.now asks.now lines.now) }
    ensures within { IfOk result (λ cut. All
        (IsItemIn sheet.now (length asks.now.epochs.items) (length lines.now)) cut.items.items) }
    // What `judge_item` says of each is what `check_all` comes to.
    ensures items { IfOk result (λ cut.
        IsToldByItems sheet.now asks.now lines.now cut.items.items) }
{
    let read = read_cut(alloc, sheet, asks, lines)?;
    let stop = match read.ending {
        Ok(_) => None,
        Err(CheckStopAt::BadLine(at)) => Some(CheckStop::BadLine {
            number: lines.number(at),
        }),
        Err(CheckStopAt::NoProof(at)) => Some(CheckStop::NoProof {
            number: lines.number(at),
        }),
        Err(CheckStopAt::Short) => Some(CheckStop::Short),
        Err(CheckStopAt::OutOfMemory) => return Err(OutOfMemory),
    };
    Ok(Cut {
        items: read.items,
        stop,
    })
}

/// The same with positions.
pub fn read_cut(
    alloc: Global,
    sheet: &Sheet,
    asks: &Asks,
    lines: &LineList,
) -> Result<CutRead, OutOfMemory>
    requires asks { AreAsks sheet.now asks.now }
    requires few { length lines.now < 2 ^ 32 }
    ensures { IfOk result (λ read. IsCutRead sheet.now asks.now lines.now read.items.items
        read.ending) }
{
    let mut items = Vec::new(alloc);
    let mut season = Season::unplayed(alloc, sheet.clubs.len(), sheet.fixtures.len())?;
    let mut reached = PartRead {
        next: 0,
        unsettled: 0,
    };
    for ask in 0..asks.epochs.len() {
        let epoch = advance(sheet, asks, &mut season, ask);
        let asked = AskedPart {
            kind: asks.kind,
            epoch: u64::from(epoch),
        };
        let report = Report::new(alloc, sheet, &season, asked, lines)?;
        match cut_ask(alloc, &report, ask as u32, reached.next, &mut items) {
            Ok(found) => reached = reached.and(found),
            Err(stop) => return stopped(items, stop),
        }
    }
    let ending = Ok(reached);
    Ok(CutRead { items, ending })
}

// The grammar stops.
fn stopped(items: Vec<Item>, stop: CheckStopAt) -> Result<CutRead, OutOfMemory>
    ensures items { IfOk result (λ read. read.items.items ≡ items.items) }
    ensures ending { IfOk result (λ read. read.ending ≡ Err stop) }
    ensures cause { IfOk result (λ read. IsTrue (is_of_lines stop)) }
{
    let ending = match stop {
        CheckStopAt::BadLine(at) => Err(CheckStopAt::BadLine(at)),
        CheckStopAt::NoProof(at) => Err(CheckStopAt::NoProof(at)),
        CheckStopAt::Short => Err(CheckStopAt::Short),
        CheckStopAt::OutOfMemory => return Err(OutOfMemory),
    };
    Ok(CutRead { items, ending })
}

// The answer to an ask.
fn cut_ask(
    alloc: Global,
    report: &Report,
    ask: u32,
    from: usize,
    items: &mut Vec<Item>,
) -> Result<PartRead, CheckStopAt>
    requires room { from ≤ length report.now.tokens }
    requires few { length report.now.tokens < 2 ^ 32 }
    ensures cuts { CutsOver report.now.tokens report.now.basis ask
        (wanted_by_ask reports report.now.basis ask) from items.old.items items.new.items result }
    ensures items { KeepsItems report.now.basis.sheet (length report.now.tokens) ask
        items.old.items items.new.items }
{
    let behind = report.ask_row(from)?;
    cut_rows(alloc, report, ask, behind, items)
}

// The rows of the answer, behind the row of the ask.
fn cut_rows(
    alloc: Global,
    report: &Report,
    ask: u32,
    from: usize,
    items: &mut Vec<Item>,
) -> Result<PartRead, CheckStopAt>
    requires room { from ≤ length report.now.tokens }
    requires few { length report.now.tokens < 2 ^ 32 }
    ensures cuts { CutsOver report.now.tokens report.now.basis ask
        (rows_wanted report.now.basis ask 0 (rows_of report.now.basis.sheet)) from
        items.old.items items.new.items result }
    ensures items { KeepsItems report.now.basis.sheet (length report.now.tokens) ask
        items.old.items items.new.items }
{
    let mut reached = PartRead {
        next: from,
        unsettled: 0,
    };
    report.recall_invariant();
    for row in 0..rows_in_answer(report.sheet()) {
        let found = cut_row(alloc, report, (ask, row), reached.next, items)?;
        reached = reached.and(found);
    }
    Ok(reached)
}

// The row at a position, with what its word asks for.
fn cut_row(
    alloc: Global,
    report: &Report,
    place: (u32, usize),
    from: usize,
    items: &mut Vec<Item>,
) -> Result<PartRead, CheckStopAt>
    requires room { from ≤ length report.now.tokens }
    requires few { length report.now.tokens < 2 ^ 32 }
    requires in_range { place.1 < length (rows_of report.now.basis.sheet) }
    ensures cuts { CutsOver report.now.tokens report.now.basis place.0
        (row_wanted report.now.basis place.0 place.1 ∷ []) from items.old.items items.new.items
        result }
    ensures items { KeepsItems report.now.basis.sheet (length report.now.tokens) place.0
        items.old.items items.new.items }
{
    report.recall_invariant();
    let about = row_at(report.sheet(), place.1);
    let outlined = outline(alloc, report, about, from);
    let item = Item {
        ask: place.0,
        question_row: place.1,
        from,
        until: end_of(outlined, report.len()),
    };
    add(items, item)?;
    outlined
}

fn add(items: &mut Vec<Item>, item: Item) -> Result<(), OutOfMemory>
    ensures ok { OnOk result (items.new.items ≡ items.old.items ++ item ∷ []) }
    ensures err { OnErr result (items.new.items ≡ items.old.items) }
{
    items.push(item)?;
    Ok(())
}

// The position after the last line of an item.
fn end_of(outlined: Result<PartRead, CheckStopAt>, lines: usize) -> usize
    ensures { result ≡ end_outlined lines outlined }
{
    match outlined {
        Ok(found) => found.next,
        Err(CheckStopAt::BadLine(at)) => at,
        Err(CheckStopAt::NoProof(at)) => at,
        Err(CheckStopAt::Short) => lines,
        Err(CheckStopAt::OutOfMemory) => lines,
    }
}
