//! The part of one ask.

ghost use Rattle.std.specs.Prelude.{◌≡◌, ◌≤◌, length, map};
ghost use Rattle.std.specs.List.{range_with_len};
ghost use Rattle.cup_laws.specs.inside.CupTruths.{AreCupResults};
ghost use Rattle.cup_sheet.specs.Cups.{AreSeasonsOf, IsCup, clubs_together};
ghost use Rattle.cup_grammar.specs.CupDues.{club_row};
ghost use Rattle.cup_grammar.specs.CupReports.{cup_tokens_of, part_of_cup_ask};
ghost use Rattle.cup_check.specs.inside.CupCheckCalls.{ChecksCup};
ghost use Rattle.cup_check.specs.inside.CupGoes.{GoesOverCup};

use crate::report::CupReport;
use cert_check::{Accepted, CheckStop, CheckStopAt, PartRead, by_number};
use cup_grammar::accepted_cup_parts_are_true;
use cup_sheet::Cup;
use kept_lines::LineList;
use league_core::Season;
use std::alloc::Global;

/// Checks the lines from a position on, from 0, as the part of a report that answers one ask of a
/// cup after so many events. `BadLine` and `NoProof` name the line at which the reading stops, by
/// its number in the input; `Short` and running out of memory name none.
pub fn check_cup(
    alloc: Global,
    cup: &Cup,
    seasons: &[Season],
    epoch: u64,
    lines: &LineList,
    from: usize,
) -> Result<Accepted, CheckStop>
    requires cup { IsCup cup.now }
    requires seasons { AreSeasonsOf cup.now.groups seasons.now }
    requires room { from ≤ length lines.now }
    ensures { ChecksCup (record { cup = cup.now; seasons = seasons.now; epoch = epoch }) lines.now
        from result }
{
    accepted_cup_parts_are_true();
    recall_results(seasons);
    let report = CupReport {
        alloc,
        cup,
        seasons,
        epoch,
        lines,
    };
    match report.part(from) {
        Ok(found) => Ok(Accepted {
            next: found.next,
            rows: u32::from(report.clubs()),
            unsettled: found.unsettled,
        }),
        Err(stop) => Err(by_number(stop, lines)),
    }
}

// A read of a season tells that its scores and deductions are within the limits: so are all.
fn recall_results(seasons: &[Season])
    ensures { AreCupResults seasons.now }
{
    for season in seasons {
        let _scores = season.scores();
    }
}

impl<'a> CupReport<'a> {
    // The part of one ask: its row, and an item for each club.
    fn part(&self, from: usize) -> Result<PartRead, CheckStopAt>
        requires { from ≤ length self.now.tokens }
        ensures { GoesOverCup self.now from (part_of_cup_ask self.now.basis.cup) result }
    {
        let at = self.ask_row(from)?;
        self.items(at)
    }

    fn items(&self, from: usize) -> Result<PartRead, CheckStopAt>
        requires { from ≤ length self.now.tokens }
        ensures { GoesOverCup self.now from
            (map club_row (range_with_len 0 (clubs_together self.now.basis.cup.groups))) result }
    {
        let mut found = PartRead {
            next: from,
            unsettled: 0,
        };
        for club in 0..self.clubs() {
            found = found.and(self.item(found.next, club)?);
        }
        Ok(found)
    }
}
