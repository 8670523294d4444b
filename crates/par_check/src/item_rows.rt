//! The rows of an answer by their positions.

ghost use Rattle.std.specs.Prelude.{◌≡◌, ◌<◌, ◌^◌, IsTrue, get_or, length};
ghost use Rattle.league_core.specs.game.Sheets.{IsWithinLimits, is_line};
ghost use Rattle.cert_check.specs.ExpectedItems.{ask_row, verdict_row};
ghost use Rattle.cert_check.specs.Machine.{rows_of};

use crate::item_due::ItemRow;
use league_core::Sheet;

/// How many rows an answer has: one for each line and each club.
pub fn rows_in_answer(sheet: &Sheet) -> usize
    requires { IsWithinLimits sheet.now }
    ensures value { result ≡ length (rows_of sheet.now) }
    ensures few { result < 2 ^ 32 }
{
    sheet.lines.len() * sheet.clubs.len()
}

/// The row at a position.
pub fn row_at(sheet: &Sheet, row: usize) -> ItemRow
    requires limits { IsWithinLimits sheet.now }
    requires in_range { row < length (rows_of sheet.now) }
    ensures due { get_or (rows_of sheet.now) row ask_row ≡ verdict_row result.line result.club }
    ensures club { result.club < length sheet.now.clubs }
    ensures line { IsTrue (is_line (length sheet.now.clubs) result.line) }
{
    let clubs = sheet.clubs.len();
    ItemRow {
        line: line_at(sheet, row / clubs),
        club: (row % clubs) as u8,
    }
}

fn line_at(sheet: &Sheet, place: usize) -> u8
    requires limits { IsWithinLimits sheet.now }
    requires in_range { place < length sheet.now.lines }
    ensures value { result ≡ get_or sheet.now.lines place 0 }
    ensures line { IsTrue (is_line (length sheet.now.clubs) result) }
{
    sheet.lines.as_slice()[place]
}
