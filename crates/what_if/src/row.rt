//! The row before the verdicts given how a match ends.

ghost use Rattle.std.specs.Prelude.{◌≡◌, IfOk};
ghost use Rattle.what_if.specs.WhenTexts.{outcome_text, when_row};

use crate::outcome::Outcome;
use answer_rows::{number_field, text_field};
use cert_text::write_row;
use league_core::OutOfMemory;
use std::alloc::Global;

/// `when,E,F,OUTCOME`, alone; `epoch` is how many events came before, and the fixture counts from 0
/// here and from 1 in the row.
pub(crate) fn when_row(
    alloc: Global,
    epoch: u64,
    fixture: u16,
    outcome: Outcome,
) -> Result<Vec<u8>, OutOfMemory>
    ensures { IfOk result (λ row. row.items ≡ when_row epoch fixture outcome) }
{
    let fields = [
        text_field(alloc, "when")?,
        number_field(alloc, epoch)?,
        number_field(alloc, u64::from(fixture) + 1)?,
        text_field(alloc, outcome_text(outcome))?,
    ];
    write_row(alloc, &fields)
}

fn outcome_text(outcome: Outcome) -> &'static str
    ensures { result.now ≡ outcome_text outcome }
{
    match outcome {
        Outcome::Home => "home",
        Outcome::Draw => "draw",
        Outcome::Away => "away",
    }
}
