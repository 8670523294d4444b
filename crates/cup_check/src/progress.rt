//! How far a report on a cup is read, and the feed beside it.

ghost use Rattle.std.specs.Prelude.{◌≡◌, IfOk};
ghost use Rattle.cert_check.specs.Outcomes.{first_progress};

use league_core::{OutOfMemory, Season, Sheet};
use std::alloc::Global;
use std::marker::Model;

/// How far a report on a cup is read, and the feed beside it.
#[derive(Drop)]
pub struct CupReportProgress {
    /// The season of the cup's joint sheet so far.
    pub season: Season,
    /// How many events of the feed came.
    pub epoch: u64,
    /// The position of the first line that is left, from 0.
    pub at: usize,
    /// How many rows of clubs came, and how many of them are unsettled.
    pub rows: u64,
    pub unsettled: u64,
}

impl Model for CupReportProgress {
    ghost use Rattle.cert_check.specs.Outcomes.{ReportProgressView};

    ghost Value = { ReportProgressView };

    ghost view = { λ standing. record {
      season = standing.season;
      epoch = standing.epoch;
      at = standing.at;
      rows = standing.rows;
      unsettled = standing.unsettled;
    } };
}

impl CupReportProgress {
    /// Before the first entry of the feed of this joint sheet, and the first line of the report.
    pub fn begin(alloc: Global, sheet: &Sheet) -> Result<CupReportProgress, OutOfMemory>
        ensures { IfOk result (λ standing. standing ≡ first_progress sheet.now) }
    {
        Ok(CupReportProgress {
            season: Season::unplayed(alloc, sheet.clubs.len(), sheet.fixtures.len())?,
            epoch: 0,
            at: 0,
            rows: 0,
            unsettled: 0,
        })
    }
}
