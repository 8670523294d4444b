//! What joins the search and the checker: an answer with proofs, of the mode `verdicts` or
//! `decide`, is a part of a report that the checker accepts.
//!
//! The statements are in `specs/inside/AcceptedAnswers.antt`, of one answer,
//! `specs/inside/AcceptedReports.antt`, of whole reports, `specs/inside/AcceptedBytes.antt`, of
//! their bytes, and `specs/inside/AcceptedTexts.antt`, of whole sessions. So it is of the mode
//! `groups`: `specs/inside/WrittenCupReports.antt`, `specs/inside/AcceptedCupTexts.antt`. That what
//! the checker of cups accepts is true stands in `specs/inside/AcceptedCups.antt`. Nothing runs
//! here, and neither side knows of the other.
#![tactic(auto)]

mod laws;

pub use laws::{accepted_cups_tell_truly, answers_are_accepted, cup_answers_are_accepted};
