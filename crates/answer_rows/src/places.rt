//! The answer of the mode `table`, row by row.

ghost use Rattle.std.specs.Prelude.{◌<◌, length};
ghost use Rattle.answer_rows.specs.inside.Outputs.{CountsPut, Puts};
ghost use Rattle.answer_rows.specs.inside.Places.{AreInSheet, text_of_place, text_of_places};
ghost use Rattle.answer_rows.specs.inside.Places.{text_of_table};

use crate::fields::club_name;
use crate::lines::put_ask;
use crate::output::{OutputStop, put_part};
use crate::rows::place_row;
use crate::table::ClubRow;
use league_core::Sheet;
use port_core::Sink;
use std::alloc::Global;

/// Writes the row of an ask and the clubs' rows. `epoch` is how many events came before the ask.
/// After a stop a prefix of the text went out, perhaps none of it.
pub fn put_table<K: Sink>(
    alloc: Global,
    epoch: u64,
    sheet: &Sheet,
    rows: &[ClubRow],
    sink: &mut K,
) -> Result<(), OutputStop>
    requires { AreInSheet sheet.now rows.now }
    ensures text { Puts (text_of_table sheet.now epoch rows.now)
        (K.holds sink.old) (K.holds sink.new) result }
    ensures counts { CountsPut (K.faults sink.old) (K.faults sink.new) result }
{
    match put_ask(alloc, epoch, sink) {
        Ok(()) => put_places(alloc, sheet, rows, sink),
        Err(stop) => Err(stop),
    }
}

fn put_places<K: Sink>(
    alloc: Global,
    sheet: &Sheet,
    rows: &[ClubRow],
    sink: &mut K,
) -> Result<(), OutputStop>
    requires { AreInSheet sheet.now rows.now }
    ensures text { Puts (text_of_places sheet.now rows.now)
        (K.holds sink.old) (K.holds sink.new) result }
    ensures counts { CountsPut (K.faults sink.old) (K.faults sink.new) result }
{
    for found in rows {
        match put_place(alloc, sheet, found, sink) {
            Ok(()) => {}
            Err(stop) => return Err(stop),
        }
    }
    Ok(())
}

fn put_place<K: Sink>(
    alloc: Global,
    sheet: &Sheet,
    found: &ClubRow,
    sink: &mut K,
) -> Result<(), OutputStop>
    requires { found.now.club < length sheet.now.clubs }
    ensures text { Puts (text_of_place sheet.now found.now) (K.holds sink.old) (K.holds sink.new)
        result }
    ensures counts { CountsPut (K.faults sink.old) (K.faults sink.new) result }
{
    match place_row(alloc, club_name(sheet, found.club), &found.row) {
        Ok(row) => put_part(sink, row.as_slice()),
        Err(_) => Err(OutputStop::OutOfMemory),
    }
}
