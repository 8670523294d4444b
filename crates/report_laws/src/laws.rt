//! The laws: functions that do nothing, with the laws as their contracts.

ghost use Rattle.report_laws.specs.inside.AcceptedAnswers.{AnswersAreAccepted};
ghost use Rattle.report_laws.specs.inside.AcceptedBytes.{WrittenAnswersAreAccepted};
ghost use Rattle.report_laws.specs.inside.AcceptedCups.{AcceptedCupsTellTruly};
ghost use Rattle.report_laws.specs.inside.AcceptedCupTexts.{CupTextsAreAccepted};
ghost use Rattle.report_laws.specs.inside.AcceptedReports.{ReportsAreAccepted};
ghost use Rattle.report_laws.specs.inside.AcceptedTexts.{TextsAreAccepted};
ghost use Rattle.report_laws.specs.inside.WrittenCupReports.{WrittenCupReportsAreAccepted};

/// An answer with proofs is one part of a report that the checker accepts for that season and that
/// number of events, whatever follows it, with as many unsettled rows as it has; and a report that
/// is the answers of all asks of a feed is accepted. So is each text that the session of a complete
/// input may write, byte for byte, after that input and the record `proofs`. All of it is said of
/// both kinds of report: answers of the mode `verdicts`, and of `decide`, with near leaves.
pub fn answers_are_accepted()
    ensures answers { AnswersAreAccepted }
    ensures reports { ReportsAreAccepted }
    ensures bytes { WrittenAnswersAreAccepted }
    ensures texts { TextsAreAccepted }
{}

/// An input whose report on a cup is accepted has the sheet of a cup that may be played, and each
/// row that says clinched, lost or possible is so of the seasons at its ask, whatever joint finish
/// may come.
pub fn accepted_cups_tell_truly()
    ensures { AcceptedCupsTellTruly }
{}

/// What the mode `groups` with proofs writes is a report that is accepted: `bytes`, behind the
/// sheet of a cup, a feed and the record `proofs`, if the input is read to its end; `texts`, with
/// the input of the session.
pub fn cup_answers_are_accepted()
    ensures bytes { WrittenCupReportsAreAccepted }
    ensures texts { CupTextsAreAccepted }
{}
