//! What the answer of a cup writes, and a law of it: the contract of a function that does nothing.
//!
//! Read `specs/CupTexts.antt` first; the law's statement is in `specs/inside/`.
#![tactic(auto)]

mod laws;

pub use laws::items_of_cups_need_no_proofs;
