//! The ranking, and boxes and bounds, beside plain slow programs, and what the search takes in a
//! zone, worked by hand and along drawn ways: tests alone.
//!
//! `plain` says the rules of the game in its own words, over lists of matches, with `totals`;
//! `ranking`, `finishes` and `groups` compare it with what the crates below answer, and `rounds`
//! has them do so over drawn leagues in both orders of the criteria. `help` has boxes and pieces;
//! `hand` the worked zones of a full window, `windows` those of a narrow one; `drawn` goes down
//! drawn ways; `pieces` has the findings in pieces that are worked by hand, `lots` finishes that
//! lots decide, `cells` the option of each cell, and `walks` examples that a walk comes to.
//!
//! `plain_boxes` tries every score of every fixture; `boxes` compares it with boxes along drawn
//! paths of literals (`drawn_boxes`), with boxes made anew, and with the cuts. `cuts` has leagues
//! that are added up by hand, `nets` networks, `ties` zones worked by hand for the sure order and
//! the reasons, `keys` keys and both their ends in zones.
#![tactic(auto)]

#[cfg(test)]
mod boxes;
#[cfg(test)]
mod cells;
#[cfg(test)]
mod cuts;
#[cfg(test)]
mod drawn;
#[cfg(test)]
mod drawn_boxes;
#[cfg(test)]
mod finishes;
#[cfg(test)]
mod groups;
#[cfg(test)]
mod hand;
#[cfg(test)]
mod help;
#[cfg(test)]
mod keys;
#[cfg(test)]
mod lots;
#[cfg(test)]
mod nets;
#[cfg(test)]
mod pieces;
#[cfg(test)]
mod plain;
#[cfg(test)]
mod plain_boxes;
#[cfg(test)]
mod ranking;
#[cfg(test)]
mod rounds;
#[cfg(test)]
mod ties;
#[cfg(test)]
mod totals;
#[cfg(test)]
mod walks;
#[cfg(test)]
mod windows;
