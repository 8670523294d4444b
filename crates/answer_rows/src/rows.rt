//! The rows of the output, each ended by LF.

ghost use Rattle.std.specs.Prelude.{◌≡◌, IfOk, IsTrue};
ghost use Rattle.answer_rows.specs.Rows.{ask_row, line_row, place_row, score_row, verdict_row};

use crate::bound::Score2;
use crate::fields::{bound_field, number_field, signed_field, text_field, word_text};
use crate::table_row::TableRow;
use crate::word::Word;
use cert_text::{LineText, write_row};
use league_core::OutOfMemory;
use std::alloc::Global;

/// `ask,E`, alone; E is `epoch`, how many events came before the ask.
pub(crate) fn ask_row(alloc: Global, epoch: u64) -> Result<Vec<u8>, OutOfMemory>
    ensures { IfOk result (λ row. row.items ≡ ask_row epoch) }
{
    let fields = [text_field(alloc, "ask")?, number_field(alloc, epoch)?];
    write_row(alloc, &fields)
}

/// A line of a proof alone on its row.
pub(crate) fn line_row<L: LineText>(alloc: Global, line: &L) -> Result<Vec<u8>, OutOfMemory>
    requires { IsTrue (L.in_range line.now) }
    ensures { IfOk result (λ row. row.items ≡ line_row L.text line.now) }
{
    let mut row = line.write(alloc)?;
    row.push(b'\n')?;
    Ok(row)
}

/// `verdict,K,CLUB,WORD`, alone.
pub(crate) fn verdict_row(
    alloc: Global,
    line: u8,
    name: &str,
    word: Word,
) -> Result<Vec<u8>, OutOfMemory>
    ensures { IfOk result (λ row. row.items ≡ verdict_row line name.now word) }
{
    let fields = [
        text_field(alloc, "verdict")?,
        number_field(alloc, u64::from(line))?,
        text_field(alloc, name)?,
        text_field(alloc, word_text(word))?,
    ];
    write_row(alloc, &fields)
}

/// `place,BEST,WORST,CLUB,PLAYED,POINTS,DIFF,SCORED`, alone.
pub(crate) fn place_row(alloc: Global, name: &str, row: &TableRow) -> Result<Vec<u8>, OutOfMemory>
    ensures { IfOk result (λ made. made.items ≡ place_row name.now row.now) }
{
    let fields = [
        text_field(alloc, "place")?,
        number_field(alloc, u64::from(row.best))?,
        number_field(alloc, u64::from(row.worst))?,
        text_field(alloc, name)?,
        number_field(alloc, u64::from(row.played))?,
        signed_field(alloc, row.points)?,
        signed_field(alloc, row.difference)?,
        signed_field(alloc, row.scored)?,
    ];
    write_row(alloc, &fields)
}

/// `score,K,CLUB,PQS,GQS`, alone.
pub(crate) fn score_row(
    alloc: Global,
    line: u8,
    name: &str,
    scores: &Score2,
) -> Result<Vec<u8>, OutOfMemory>
    ensures { IfOk result (λ row. row.items ≡ score_row line name.now scores.now) }
{
    let fields = [
        text_field(alloc, "score")?,
        number_field(alloc, u64::from(line))?,
        text_field(alloc, name)?,
        bound_field(alloc, &scores.pqs)?,
        bound_field(alloc, &scores.gqs)?,
    ];
    write_row(alloc, &fields)
}
