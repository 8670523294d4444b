//! Places in a report, and what is read from one to another.

ghost use Rattle.std.specs.Prelude.{◌≡◌, ◌<◌, ◌+◌, ◌^◌, true};

use crate::asks::Asks;
use cert_check::CheckStopAt;
use kept_lines::LineList;
use league_core::Sheet;
use std::alloc::Global;

/// A report with the sheet and the asks by which it is judged.
#[derive(Drop)]
pub struct Whole<'a> {
    pub alloc: Global,
    pub sheet: &'a Sheet,
    pub asks: &'a Asks,
    pub lines: &'a LineList,
}

/// Where the reading of a report stands: at an ask, before this row of its answer, and at the
/// position of the next line. Row 0 is the ask's own.
#[derive(Clone, Copy)]
pub struct Place {
    pub ask: usize,
    pub row: usize,
    pub next: usize,
}

/// So much of a report: from a place up to before a row of an ask.
#[derive(Clone, Copy)]
pub struct Run {
    pub from: Place,
    pub until_ask: usize,
    pub until_row: usize,
}

/// The place that a reading reached, and how many unsettled rows it passed.
#[derive(Clone, Copy)]
pub struct RunRead {
    pub to: Place,
    pub unsettled: u32,
}

/// What a run came to that was read from here.
#[derive(Clone, Copy)]
pub struct RunJudged {
    pub from: Place,
    pub ending: Result<RunRead, CheckStopAt>,
}

/// This and what was read behind it.
pub fn read_both(before: RunRead, later: RunRead) -> RunRead
    requires { before.unsettled + later.unsettled < 2 ^ 32 }
    ensures { result ≡ record {
      to = later.to;
      unsettled = before.unsettled + later.unsettled;
    } }
{
    RunRead {
        to: later.to,
        unsettled: before.unsettled + later.unsettled,
    }
}

/// Both are the same place.
pub fn is_same_place(place: Place, other: Place) -> bool
    ensures { result ≡ true → place ≡ other }
{
    place.ask == other.ask && place.row == other.row && place.next == other.next
}
