//! The laws: functions that do nothing, with the laws as their contracts.

ghost use Rattle.cup_stops.specs.inside.CupStops.{AcceptedCupCasesAreProved, AnswersAreDue};
ghost use Rattle.cup_stops.specs.inside.CupStops.{BadCupLinesDoNotFit, ProvedCupCasesAreAccepted};
ghost use Rattle.cup_stops.specs.inside.CupStops.{ShortCupReportsBegin, UnprovedCupLinesFit};

/// Each stop comes exactly at its line, where all that is due can be met; in an answer it can.
pub fn cup_stops_are_exact()
    ensures bad_line { BadCupLinesDoNotFit }
    ensures no_proof { UnprovedCupLinesFit }
    ensures short { ShortCupReportsBegin }
    ensures due { AnswersAreDue }
{}

/// What is read as whole is made of proved parts.
pub fn accepted_cup_cases_are_proved()
    ensures { AcceptedCupCasesAreProved }
{}

/// Whatever is made of proved parts is read as whole.
pub fn proved_cup_cases_are_accepted()
    ensures { ProvedCupCasesAreAccepted }
{}
