//! The mode `sample`: a league is made from a number, and its verdicts are counted.

ghost use Rattle.std.specs.Prelude.{◌≡◌, IfOk};
ghost use Rattle.futmax_main.specs.SampleRows.{CountsSample, IsSampleText, ServesSample};
ghost use Rattle.futmax_main.specs.SampleRows.{sample_row};

use answer_rows::{number_field, put_row, text_field};
use cert_text::write_row;
use league_core::OutOfMemory;
use port_core::Sink;
use run_ends::Status;
use sample_counts::{Counts, count_sample};
use std::alloc::Global;

/// Works on the league of a number, and writes one row of counts.
pub fn run_sample<K: Sink>(alloc: Global, seed: u64, sink: &mut K) -> Status
    ensures serves { ServesSample seed (K.holds sink.old) (K.holds sink.new) result }
    ensures counts { CountsSample (K.faults sink.old) (K.faults sink.new) result }
{
    let Ok(row) = counted_row(alloc, seed) else {
        return Status::OutOfMemory;
    };
    match put_row(sink, row.as_slice()) {
        Ok(()) => Status::Done,
        Err(_) => Status::WriteFault,
    }
}

// The row of the league of a number.
fn counted_row(alloc: Global, seed: u64) -> Result<Vec<u8>, OutOfMemory>
    ensures { IfOk result (λ row. IsSampleText seed row.items) }
{
    let counts = count_sample(alloc, seed)?;
    sample_row(alloc, seed, &counts)
}

fn sample_row(alloc: Global, seed: u64, counts: &Counts) -> Result<Vec<u8>, OutOfMemory>
    ensures { IfOk result (λ row. row.items ≡ sample_row seed counts.now) }
{
    let fields = [
        text_field(alloc, "sample")?,
        number_field(alloc, seed)?,
        number_field(alloc, counts.clinched)?,
        number_field(alloc, counts.lost)?,
        number_field(alloc, counts.possible)?,
        number_field(alloc, counts.unsettled)?,
    ];
    write_row(alloc, &fields)
}
