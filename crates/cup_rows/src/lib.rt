//! The answer of a cup, club by club: a word, and the lines that show it, as rows on their way to
//! the sink.
//!
//! Clubs, fixtures and groups have the numbers of the cup; the trees of a search have those of
//! their group. Read cup_answers' `specs/CupTexts.antt` first.
#![tactic(auto)]

mod answer;
mod found;
mod joint_lines;
mod node_line;
mod put;
mod refuted;
mod tree_lines;
mod verdict;

pub use answer::{CupAnswer, put_cup_answer};
pub use found::{FoundClub, finding_lines, word_of_finding};
pub use put::put_cup_item;
