//! The numbers of all clubs and lines.

ghost use Rattle.std.specs.Prelude.{IfOk, OnOk, IsTrue, length};
ghost use Rattle.league_core.specs.game.Seasons.{IsLeague};
ghost use Rattle.league_core.specs.game.Sheets.{is_line};
ghost use Rattle.answer_rows.specs.inside.SpentLines.{AreInLineRange};
ghost use Rattle.qual_scores.specs.AllScores.{AreScoresOf};
ghost use Rattle.qual_scores.specs.inside.AddedScores.{AddsLine};

use crate::search::scores;
use answer_rows::ClubScores;
use league_core::{OutOfMemory, Season, Sheet};
use std::alloc::Global;

/// The two numbers of each club and line: line by line in the order of the sheet, and for each line
/// club by club.
pub fn all_scores(
    alloc: Global,
    sheet: &Sheet,
    season: &Season,
) -> Result<Vec<ClubScores>, OutOfMemory>
    requires { IsLeague sheet.now season.now }
    ensures right { IfOk result (λ found. AreScoresOf sheet.now season.now found.items) }
    ensures in_range { IfOk result (λ found. AreInLineRange sheet.now found.items) }
{
    let mut found = Vec::new(alloc);
    for line in sheet.lines.as_slice() {
        push_line(alloc, &mut found, sheet, season, *line)?;
    }
    Ok(found)
}

// The numbers about a line.
fn push_line(
    alloc: Global,
    found: &mut Vec<ClubScores>,
    sheet: &Sheet,
    season: &Season,
    line: u8,
) -> Result<(), OutOfMemory>
    requires league { IsLeague sheet.now season.now }
    requires line { IsTrue (is_line (length sheet.now.clubs) line) }
    ensures { OnOk result (AddsLine sheet.now season.now line found.old.items found.new.items) }
{
    for club in 0..sheet.clubs.len() as u8 {
        let scores = scores(alloc, sheet, season, club, line)?;
        found.push(ClubScores { line, club, scores })?;
    }
    Ok(())
}
