//! The rows that end a run.

ghost use Rattle.std.specs.Prelude.{◌≡◌, ◌∷◌, [], IfOk, codes, decimal, string_bytes};
ghost use Rattle.cert_text.specs.Rows.{text_of_row};
ghost use Rattle.run_ends.specs.Rows.{cause_text, fault_row, usage_row};

use crate::run_end::{Cause, Fault};
use answer_rows::{number_field, text_field};
use cert_text::write_row;
use league_core::OutOfMemory;
use std::alloc::Global;

/// `fault,LINE,CODE`, alone.
pub fn fault_row(alloc: Global, fault: &Fault) -> Result<Vec<u8>, OutOfMemory>
    ensures { IfOk result (λ row. row.items ≡ fault_row fault.now) }
{
    let fields = [
        text_field(alloc, "fault")?,
        number_field(alloc, fault.number)?,
        text_field(alloc, cause_text(fault.cause))?,
    ];
    write_row(alloc, &fields)
}

/// `usage,..`, alone.
pub fn usage_row(alloc: Global) -> Result<Vec<u8>, OutOfMemory>
    ensures { IfOk result (λ row. row.items ≡ usage_row) }
{
    let fields = [
        text_field(alloc, "usage")?,
        text_field(alloc, "futmax MODE [--workers N] [--proofs] [--seed N]")?,
    ];
    write_row(alloc, &fields)
}

fn cause_text(cause: Cause) -> &'static str
    ensures { result.now ≡ cause_text cause }
{
    match cause {
        Cause::Sheet(fault) => fault.code(),
        Cause::Cup(fault) => fault.code(),
        Cause::Feed(fault) => fault.code(),
        Cause::LineTooLong => "line_too_long",
        Cause::InputTooLong => "input_too_long",
        Cause::BadSave => "bad_save",
    }
}
