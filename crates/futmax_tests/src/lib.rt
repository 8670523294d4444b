//! Whole runs of the program over devices of their own, and workers beside a feed, held by gates:
//! tests alone.
//!
//! What an input and devices in memory can show, the cases of the program `futmax_rows` show.
#![tactic(auto)]

#[cfg(test)]
mod company;
#[cfg(test)]
mod gates;
#[cfg(test)]
mod kept;
#[cfg(test)]
mod limits;
#[cfg(test)]
mod order;
#[cfg(test)]
mod overlap;
#[cfg(test)]
mod rounds;
#[cfg(test)]
mod runs;
#[cfg(test)]
mod stale_ticket;
#[cfg(test)]
mod words;
