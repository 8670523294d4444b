//! The laws of the grammar: functions that do nothing, each with a law as its contract.
//!
//! The statements are in `specs/inside/Laws.antt`.

ghost use Rattle.cert_check.specs.inside.Laws.{AcceptedPartsAreProved, ProvedPartsAreAccepted};
ghost use Rattle.cert_check.specs.inside.Truths.{ProvedRowsAreTrue};
ghost use Rattle.cert_check.specs.inside.Answers.{ShownAnswersAreAccepted};
ghost use Rattle.cert_check.specs.inside.Laws.{BadLinesDoNotFit, UnprovedLinesFit};
ghost use Rattle.cert_check.specs.inside.Laws.{ShortReportsBegin};

/// What is accepted is made of proved parts.
pub fn accepted_parts_are_proved()
    ensures { AcceptedPartsAreProved }
{}

/// Each row of a proved part is true of the season, whatever finish and lots may come.
pub fn proved_rows_are_true()
    ensures { ProvedRowsAreTrue }
{}

/// Whatever is made of proved parts is accepted.
pub fn proved_parts_are_accepted()
    ensures { ProvedPartsAreAccepted }
{}

/// Each stop comes exactly at its line.
pub fn stops_are_exact()
    ensures bad_line { BadLinesDoNotFit }
    ensures no_proof { UnprovedLinesFit }
    ensures short { ShortReportsBegin }
{}

/// An answer whose words are shown by refutations, spent trees and examples is accepted.
pub fn shown_answers_are_accepted()
    ensures { ShownAnswersAreAccepted }
{}
