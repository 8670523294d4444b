//! The item of a club on its way to the sink.

ghost use Rattle.std.specs.Prelude.{◌≡◌, ◌<◌, ◌++◌, All, IsTrue};
ghost use Rattle.answer_rows.specs.Rows.{verdict_row};
ghost use Rattle.answer_rows.specs.inside.Outputs.{CountsPut, Puts, PutsSomeText};
ghost use Rattle.cup_sheet.specs.Cups.{IsCup, AreSeasonsOf, clubs_together};
ghost use Rattle.cup_text.specs.CupRanges.{is_cup_line};
ghost use Rattle.cup_text.specs.CupItems.{cup_club_name};
ghost use Rattle.cup_answers.specs.CupTexts.{IsCupItemText, text_of_cup_lines};
ghost use Rattle.cup_rows.specs.inside.FoundClubs.{IsFoundClub};
ghost use Rattle.cup_rows.specs.inside.VerdictLines.{word_of_finding};

use crate::found::{FoundClub, finding_lines, word_of_finding};
use answer_rows::{OutputStop, club_name, put_lines, put_verdict};
use cup_groups::seat_of;
use cup_sheet::Cup;
use cup_text::CupLine;
use league_core::Season;
use port_core::Sink;
use std::alloc::Global;

/// Writes the item of a club: the row of its verdict, then the lines that show it. All of them are
/// known before the row is written. After a stop a prefix of an item went out, perhaps nothing.
pub fn put_cup_item<K: Sink>(
    alloc: Global,
    proofs: bool,
    cup: &Cup,
    seasons: &[Season],
    found: &FoundClub,
    sink: &mut K,
) -> Result<(), OutputStop>
    requires cup { IsCup cup.now }
    requires seasons { AreSeasonsOf cup.now.groups seasons.now }
    requires found { IsFoundClub cup.now seasons.now found.now }
    ensures text { PutsSomeText (IsCupItemText proofs cup.now seasons.now found.now.club)
        (K.holds sink.old) (K.holds sink.new) result }
    ensures counts { CountsPut (K.faults sink.old) (K.faults sink.new) result }
{
    match finding_lines(alloc, proofs, cup, seasons, found) {
        Ok(lines) => put_rows(alloc, cup, found, lines.as_slice(), sink),
        Err(_) => Err(OutputStop::OutOfMemory),
    }
}

fn put_rows<K: Sink>(
    alloc: Global,
    cup: &Cup,
    found: &FoundClub,
    lines: &[CupLine],
    sink: &mut K,
) -> Result<(), OutputStop>
    requires cup { IsCup cup.now }
    requires in_range { found.now.club < clubs_together cup.now.groups }
    requires forms { All (λ line. IsTrue (is_cup_line line)) lines.now }
    ensures text { Puts (verdict_row cup.now.quota (cup_club_name cup.now found.now.club)
        (word_of_finding found.now.finding) ++ text_of_cup_lines lines.now)
        (K.holds sink.old) (K.holds sink.new) result }
    ensures counts { CountsPut (K.faults sink.old) (K.faults sink.new) result }
{
    let name = name_in_cup(cup, found.club);
    match put_verdict(
        alloc,
        cup.quota,
        name,
        word_of_finding(&found.finding),
        sink,
    ) {
        Ok(()) => put_lines(alloc, lines, sink),
        Err(stop) => Err(stop),
    }
}

// The name of a club, by its number in the cup.
fn name_in_cup(cup: &Cup, club: u8) -> &str
    requires cup { IsCup cup.now }
    requires in_range { club < clubs_together cup.now.groups }
    ensures { result.now ≡ cup_club_name cup.now club }
{
    let seat = seat_of(cup, club).unwrap();
    club_name(&cup.groups.as_slice()[seat.group as usize], seat.own)
}
