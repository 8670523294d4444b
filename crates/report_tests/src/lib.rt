//! Rows and proof lines against texts written by hand and by other programs, and the checker's
//! calls with ample memory: tests alone. Reports with all their alterations are rows of the
//! program.
#![tactic(auto)]

#[cfg(test)]
mod cuts;
#[cfg(test)]
mod lines;
#[cfg(test)]
mod readings;
#[cfg(test)]
mod rows;
#[cfg(test)]
mod smoke;
#[cfg(test)]
mod wide;
