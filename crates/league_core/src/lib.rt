//! The words of a league: its sheet, its season, its ranking, and what a verdict means.
//!
//! The meaning is in specs/, one module a notion: read `specs/Lib.antt` for their order. The types
//! here hold what those definitions speak of. Contracts see each type as plain data, so that two
//! values with the same content are equal.
#![tactic(auto)]

mod club_set;
mod clubs;
mod finish;
mod finish_laws;
mod given_laws;
mod laws;
mod lending_laws;
pub mod limits;
mod listing;
mod log_laws;
mod lots;
mod memory;
mod pair_laws;
mod proposal_laws;
mod question;
mod range_laws;
mod roomy_list;
mod score_code;
mod season;
mod sheet;
mod sure;
mod tree;
mod tree_laws;
mod zone;
mod zone_laws;

pub use club_set::ClubSet;
pub use clubs::Clubs;
pub use finish::Finish;
pub use finish_laws::{finishes_are_listed, finishes_are_played, one_verdict_at_least};
pub use given_laws::{verdicts_given_nothing_are_the_seasons, zones_have_fewer_examples};
pub use laws::{
    a_played_season_is_its_only_finish, each_season_has_a_finish, events_are_taken_in_order,
    lots_give_each_table, more_points_rank_before, one_verdict_at_most,
    points_are_in_the_full_window, ranking_is_a_total_order, standing_is_a_total_order,
    standing_is_the_recursion, times_are_enough, two_lots_suffice,
    two_places_decide_a_played_season,
};
pub use lending_laws::{
    loans_are_counted, loans_keep_facts, opened_trees_lend_nothing, put_changes_its_leaves_alone,
    put_counts_what_it_brings,
};
pub use listing::{Listing, Name};
pub use log_laws::{events_have_codes, events_keep_seasons, logs_give_seasons};
pub use lots::Lots;
pub use memory::OutOfMemory;
pub use pair_laws::group_sums_are_of_pairs;
pub use proposal_laws::{
    option_order_is_total, options_have_one_first, proposed_finishes_are_finishes,
};
pub use question::{Claim, Question};
pub use range_laws::ranges_are_exact;
pub use roomy_list::RoomyList;
pub use season::{Event, Score, Season};
pub use sheet::{Club, Fixture, Order, Sheet};
pub use sure::Sure;
pub use tree::TreeNode;
pub use tree_laws::{
    leaves_tell_the_tree, nodes_are_counted, splits_leave_finishes, trees_are_their_lists,
};
pub use zone::{Literal, Reason, Test, Zone};
pub use zone_laws::finishes_take_options;
