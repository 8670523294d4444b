//! Bounds by cuts: which rivals must together take too many points, or cannot take enough.
//!
//! A floor cut is a set of rivals, all marked after the question's club, whose points together
//! exceed what they have if each stays within the most of that club. A ceiling cut is a set of
//! rivals, all marked before the club, that cannot all come up to its least. Both are sought in the
//! same way: the excess of a set is what its clubs add alone, and what each two of them that still
//! meet add beyond that (`tally`). Clubs that no set needs are dropped, first by their own points
//! (`prefilter_by_points`), then by their matches (`peel`), and the rest is one minimum cut
//! (`network`). Read `specs/inside/Excess.antt` first.
#![tactic(auto)]

mod bounds;
mod choice;
mod cut;
mod keep;
mod meetings;
mod network;
mod peel;
mod places;
mod prefilter;
mod table;
mod tally;
mod worth;

pub use bounds::{high_cut, high_cut_from, low_cut, low_cut_from};
pub use keep::FlowKeep;
