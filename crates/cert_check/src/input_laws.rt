//! A law: a function that does nothing, with the law as its contract.
//!
//! The statement is in `specs/inside/ReportTruths.antt`.

ghost use Rattle.cert_check.specs.inside.ReportTruths.{AcceptedInputsTellTruly};

/// An input whose report is accepted has one that tells the truth: each row that says clinched,
/// lost or possible is so in the season at its ask, for every finish and every drawing of lots.
pub fn accepted_inputs_tell_truly()
    ensures { AcceptedInputsTellTruly }
{}
